ghost use Rattle.std.specs.Prelude.{◌≡◌, ◌≤◌, IfOk};
ghost use Rattle.drill.specs.Script.{script_of};

use crate::draft::Draft;
use mv_model::NoMemory;
use script_text::Script;
use std::alloc::Global;

/// The script of a number: the creation of the table, which is not counted, and so many statements of the sessions 1 to
/// 4. docs/DRILL.md, "The script", says how each is drawn.
pub fn script_of(alloc: Global, number: u64, statements: u32) -> Result<Script, NoMemory>
    requires some { 1 ≤ statements }
    requires most { statements ≤ 20000 }
    ensures { IfOk result (λ script. script ≡ script_of number statements) }
{
    let mut draft = Draft::new(alloc, number)?;
    for _ in 0..statements {
        draft.push_statement(alloc)?;
    }
    Ok(Script::of(draft.into_lines()))
}
