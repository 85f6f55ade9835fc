ghost use Rattle.std.specs.Prelude.{◌≤◌, ◌^◌, All, IfOk, IfErr, length};
ghost use Rattle.pt_engine.specs.Causes.{HasCauses};
ghost use Rattle.pt_engine.specs.Input.{StopsTaking, TakesScript};

use crate::Ending;
use pt_host::Host;
use pt_plain::List;
use pt_reading::Script;
use pt_value::Bin;
use std::alloc::Global;

/// What was taken of the input.
#[derive(Drop)]
pub(crate) struct Taken {
    /// The statements before the first byte that passes a limit, or all of them.
    pub(crate) statements: List<Bin>,
    /// Whether a byte passes a limit.
    pub(crate) too_long: bool,
}

/// Takes the input to its end, or to the first byte that passes a limit.
pub(crate) fn take_script<H: Host>(alloc: Global, host: &mut H) -> Result<Taken, Ending>
    ensures short { IfOk result (λ taken. All (λ piece. length piece ≤ 2 ^ 20) taken.statements) }
    ensures ok { IfOk result (λ taken. H.tells → TakesScript (H.world host.old) (H.world host.new) taken) }
    ensures err { IfErr result (λ ending. H.tells → StopsTaking ending (H.world host.old) (H.world host.new)) }
    ensures counts { HasCauses (H.counts host.old) (H.counts host.new) result }
{
    let mut script = Script::new(alloc);
    let mut chunk = [0u8; 4096];
    loop {
        let count = match host.take(&mut chunk) {
            Ok(count) => count,
            Err(_) => return Err(Ending::InputFault),
        };
        if count == 0 {
            script.end()?;
            return Ok(Taken {
                statements: script.into_statements(),
                too_long: false,
            });
        }
        if !script.feed(&chunk[..count])? {
            return Ok(Taken {
                statements: script.into_statements(),
                too_long: true,
            });
        }
    }
}
