// What a run leaves: the bytes of an image and of a text.
ghost use Rattle.std.specs.Prelude.{◌≡◌, ℕ, List, None, All, IfOk, IfErr, IsErrOf};
ghost use Rattle.image_layout.specs.Checks.{first_fault};
ghost use Rattle.pm_model.specs.Plain.{device_of};
ghost use Rattle.pm_model.specs.Plans.{at_rest};
ghost use Rattle.engine_core.specs.ImageRules.{entry_rules};
ghost use Rattle.engine_core.specs.Opened.{IsRefusal};
ghost use Rattle.engine_core.specs.Opening.{opening_fault, recovered};
ghost use Rattle.engine_core.specs.declared.store_core.OpenError.TheVariants.{NoMemory as OutOfMemory};
ghost use Rattle.script_text.specs.Printed.{history_text};
ghost use Rattle.script_text.specs.Script.{IsBuiltLine};
ghost use Rattle.session_serve.specs.Parts.{IsLeftBy, LeavesBy, kept_by};
ghost use Rattle.session_serve.specs.Playing.{IsFresh};

use crate::playing::{Ending, play_script};
use engine_core::{Core, OpenError};
use mv_model::NoMemory;
use pm_image::encode;
use pm_model::{Keep, Memory, Plain};
use script_text::{Script, print_history};
use std::alloc::Global;

/// What a run leaves: the bytes of an image and of a text.
#[derive(Debug, Drop)]
pub(crate) struct Left {
    pub ending: Ending,
    pub image: Vec<u8>,
    pub text: Vec<u8>,
}

/// Which words are kept: all of them where nothing was cut.
fn kept(ending: Ending, keep: Keep) -> Keep
    ensures { result ≡ kept_by ending keep }
{
    match ending {
        Ending::Finished => Keep::All,
        Ending::Cut => keep,
    }
}

/// The bytes of the image that a power cut leaves.
fn image_bytes<M: Memory>(alloc: Global, memory: &M, keep: Keep) -> Result<Vec<u8>, NoMemory>
    ensures { IfOk result (λ bytes. IsLeftBy keep (M.device memory.now) bytes.items) }
{
    let words = memory.choose(keep)?;
    encode(alloc, &words)
}

/// Runs a script over a core that was just opened.
fn play_core<M: Memory>(
    alloc: Global,
    core: &mut Core<M>,
    script: Script,
    cut: Option<u64>,
    keep: Keep,
) -> Result<Left, NoMemory>
    requires built { All IsBuiltLine script }
    requires fresh { IsFresh core.old }
    ensures { IfOk result (λ left. (words : List ℕ) → opening_fault words ≡ None → core.old.opened ≡ recovered words
        → LeavesBy left.ending cut keep words script left.image.items left.text.items) }
{
    let ending = play_script(core, script, cut)?;
    let text = print_history(alloc, core.history())?;
    let image = image_bytes(alloc, core.memory(), kept(ending, keep))?;
    Ok(Left {
        ending,
        image,
        text,
    })
}

/// Opens the image of this memory.
fn open(alloc: Global, memory: Plain) -> Result<Core<Plain>, OpenError>
    requires { device_of memory ≡ at_rest (device_of memory).cached }
    ensures fresh { IfOk result (λ core. IsFresh core) }
    ensures opened { IfOk result (λ core. core.opened ≡ recovered (device_of memory).cached) }
    ensures accepted { IfOk result (λ core. opening_fault (device_of memory).cached ≡ None) }
    ensures refused { IfErr result (λ error. IsRefusal error (opening_fault (device_of memory).cached)) }
    ensures rules { IsErrOf result OutOfMemory → first_fault entry_rules (device_of memory).cached ≡ None }
{
    Core::from_memory(alloc, memory)
}

/// Opens the image of this memory, and runs a script over it. Where memory runs out, the image keeps the rules that are
/// tried without any.
pub(crate) fn play(
    alloc: Global,
    memory: Plain,
    script: Script,
    cut: Option<u64>,
    keep: Keep,
) -> Result<Left, OpenError>
    requires rests { device_of memory ≡ at_rest (device_of memory).cached }
    requires built { All IsBuiltLine script }
    ensures left { IfOk result (λ left.
        LeavesBy left.ending cut keep (device_of memory).cached script left.image.items left.text.items) }
    ensures refused { IfErr result (λ error. IsRefusal error (opening_fault (device_of memory).cached)) }
    ensures rules { IsErrOf result OutOfMemory → first_fault entry_rules (device_of memory).cached ≡ None }
{
    let mut core = match open(alloc, memory) {
        Ok(core) => core,
        Err(error) => {
            drop(script);
            return Err(error);
        }
    };
    let left = play_core(alloc, &mut core, script, cut, keep);
    drop(core);
    Ok(left?)
}
