// Writing a model file, which is read again as it was.
ghost use Rattle.std.specs.Prelude.{◌≡◌, ℕ, List, Result, Ok, IfOk};
ghost use Rattle.cyc_lex.specs.declared.fault.ReadFault.{ReadFault};
ghost use Rattle.model_file.specs.declared.file.Model.{Model as TheModel};
ghost use Rattle.model_file.specs.Written.{text_of_model};
ghost use Rattle.model_file.specs.Reading.{AreSame, IsRead, Reads, IsReadAgain};

use crate::file::Model;
use crate::syntax::write_tree;
use crate::trees::model_tree;
use cyc_basics::memory::OutOfMemory;
use std::alloc::Global;

/// The text of a model in the written form: its tokens, the cells by ascending addresses, with one space between
/// neighbours but where the format has none, and a line feed after each `;`.
pub fn write_model(alloc: Global, model: &Model) -> Result<Vec<u8>, OutOfMemory>
    ensures text { IfOk result (λ bytes. bytes.items
        ≡ text_of_model model.now.version model.now.defs.list model.now.stack model.now.heap model.now.ask) }
    ensures spells { IfOk result (λ bytes. IsRead bytes.items (Ok model.now)) }
{
    let tree = model_tree(alloc, model)?;
    write_tree(alloc, &tree)
}

/// Whatever is read of a model's text is that model, unless memory runs out. The function does nothing.
pub fn written_models_are_read_again()
    ensures { (m : TheModel) (bytes : List ℕ) (answer : Result TheModel ReadFault)
        → bytes ≡ text_of_model m.version m.defs.list m.stack m.heap m.ask → Reads bytes answer
        → IsReadAgain m answer }
{}

/// Bytes spell at most one model. The function does nothing.
pub fn bytes_spell_one_model()
    ensures { (bytes : List ℕ) (m n : TheModel) → IsRead bytes (Ok m) → IsRead bytes (Ok n) → AreSame m n }
{}
