// A script that is read.
use script_reader::read_script;

const SCRIPT: &str =
    "(declare-sort L 0)(declare-datatypes ((C 0)) (((c (next L)))))(declare-heap (L C))
    (define-fun-rec ls ((a L) (b L)) Bool (or (and (= a b) emp) (exists ((u L)) (sep (pto a (c u)) (ls u b)))))
    (declare-const x L)(assert (and (distinct x nil) (ls x nil)))(assert (not (pto x (c nil))))(check-sat)";

#[test]
fn reads_a_script(rt: HostRuntime) {
    match read_script(rt.alloc(), SCRIPT.as_bytes()) {
        Ok(read) => {
            assert_eq!(rt; read.script.predicates.len(), 1);
            assert_eq!(rt; read.script.asserted.len(), 2);
            assert_eq!(rt; read.script.denied.len(), 1);
            assert_eq!(rt; read.script.constructors.len(), 1);
        }
        Err(_) => assert!(rt; false),
    }
}
