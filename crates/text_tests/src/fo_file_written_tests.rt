// What is written of the proofs that texts spell.
use fo_file::{read_fo, write_fo};
use std::alloc::Global;
use std::test::Fail;

/// What is written of the proof that a text spells.
fn again(alloc: Global, bytes: &[u8]) -> Result<Vec<u8>, &'static str> {
    if bytes.len() > 10000 {
        return Err("long");
    }
    match read_fo(alloc, bytes) {
        Err(_) => Err("not read"),
        Ok(file) => write_fo(alloc, &file).map_err(|_| "no memory"),
    }
}

const SHORT: &[u8] = b"cyclist fo 1;
con z 0;
node true |- false by Refl 0;
end;
";

const ADDITION: &[u8] = b"cyclist fo 1;
con z 0;
con s 1;
con pair 2;
pred n(1) { $0 = z() | $0 = s(?0), n(?0) };
pred add(3) { $0 = z(), $1 = $2 | $0 = s(?0), $2 = s(?15), add(?0, $1, ?15) };
pred q(0) { true };
node n($0), add(pair(s($0), z()), $65534, pair(z(), pair($1, z()))) |- q(), pair($1, s(z())) = $2 by Axiom 0 4000 to 1 2;
node true |- false by Replace 7 right;
node q() |- q() by Cut add(z(), pair(z(), z()), s(z()));
node q() |- q() by Right 0 1 [$3, s(pair($1, z()))] to 2;
node q() |- q() by Right 0 1 [];
node q() |- q() by Link 0 { $1 := s($0), $65534 := z() } [0 1 0] [];
end;
";

const ALL_REASONS: &[u8] = b"cyclist fo 1;
con z 0;
con s 1;
con pair 2;
pred nat(1) { $0 = z() | $0 = s(?0), nat(?0) };
pred even(1) { $0 = z() | $0 = s(s(?0)), even(?0) };
pred flag(0) { true };
node even($0), s(z()) = pair(s($1), pair(z(), $12)) |- nat($0), flag() by Axiom 0 1 to 1 2;
node true |- false by Refl 0;
node true |- false by Clash 3;
node true |- false by Decompose 0 to 0;
node true |- false by Replace 1 left to 2;
node true |- false by Replace 0 right;
node true |- false by WeakenLeft 0;
node true |- false by WeakenRight 999999999;
node true |- false by Contract 2 to 12;
node true |- false by Unfold 0 to 1 2;
node true |- false by Cut nat(s(s($3))) to 1 2;
node true |- false by Cut $0 = pair($1, $2);
node true |- false by Right 0 1 [];
node true |- false by Right 0 1 [z(), s($4), $5];
node true |- false by Link 0 { } [] [];
node true |- false by Link 12 { $0 := s(z()), $3 := $1 } [1 0] [0 0 3];
end;
";

/// A text in the written form, with every kind of atom and every reason, is written as it stands.
#[test]
fn writes_what_it_reads(rt: HostRuntime) -> Result<(), Fail> {
    for text in [SHORT, ADDITION, ALL_REASONS] {
        let written = again(rt.alloc(), text)?;
        assert_eq!(rt; written.as_slice(), text);
    }
    Ok(())
}

const MIXED: &[u8] = b"# zero is a number
cyclist fo 1;con z 0 ;node z()=
z() |- z ( ) = z() by Refl 0;end;# no more";

const ORDERED: &[u8] = b"cyclist fo 1;
con z 0;
node z() = z() |- z() = z() by Refl 0;
end;
";

/// Spaces and comments are not kept.
#[test]
fn writes_in_one_form(rt: HostRuntime) -> Result<(), Fail> {
    let written = again(rt.alloc(), MIXED)?;
    assert_eq!(rt; written.as_slice(), ORDERED);
    Ok(())
}
