ghost use Rattle.std.specs.Prelude.{◌≡◌, ◌⊎◌, ◌≢◌, ◌↔◌, ◌≤◌, ◌^◌, All, Some, None, IsSome, length, map};
ghost use Rattle.std.specs.Option.{option_copied};
ghost use Rattle.std.specs.String.{string_bytes};
ghost use Rattle.pt_host.specs.Disk.{IsAtRest, shown};
ghost use Rattle.pt_host.specs.World.{IsIdle};
ghost use Rattle.pt_left.specs.Left.{shadow_name};
ghost use Rattle.pt_ast.specs.declared.database.Db.{Db};
ghost use Rattle.pt_reading.specs.Script.{has_excess, statements};
ghost use Rattle.pt_session.specs.Directory.{HoldsIn, IsDamaged};
ghost use Rattle.pt_session.specs.Session.{IsOpen, IsSession};
ghost use Rattle.pt_engine.specs.Answers.{ChangesNothing};
ghost use Rattle.pt_engine.specs.Causes.{IsCaused, NoneRose};
ghost use Rattle.pt_engine.specs.Endings.{IfDamaged};
ghost use Rattle.pt_engine.specs.Kept.{KeepsInOrder};
ghost use Rattle.pt_engine.specs.Parts.{AnswersTaken, IsRun};
ghost use Rattle.pt_engine.specs.Run.{dir_of, IsComplete, StandsAt, TellsDamage};
ghost use Rattle.pt_engine.specs.Session.{EntersNothing, StandsOver};

use crate::Ending;
use crate::answers::answer_all;
use crate::input::{Taken, take_script};
use pt_host::Host;
use pt_session::Session;
use std::alloc::Global;

/// All that the program does. `words` are those of the command line after the program's name: `run DIR` is the one form.
/// The directory DIR is entered and its database opened, the input is taken to its end or to the first byte that passes a
/// limit, and its statements are executed one by one: each is kept in the directory before its answer is said.
pub fn run<H: Host>(alloc: Global, words: &Vec<String>, host: &mut H) -> Ending
    requires new { H.tells → (H.world host.old).dir ≡ None }
    requires at_rest { H.tells → IsAtRest (H.world host.old).now.fs }

    // Words of no form, and then no call was made.
    ensures usage { (result ≡ Ending.Usage) ↔ (dir_of (map string_bytes words.now.items) ≡ None) }
    ensures untouched { result ≡ Ending.Usage → host.new ≡ host.old }

    // The causes of the other endings: a fault's only where that count rose, and no other count changes.
    ensures causes { IsCaused (H.counts host.old) (H.counts host.new) result }
    ensures damage { result ≢ Ending.Usage → H.tells → TellsDamage result (H.world host.old) (H.world host.new) }
    ensures complete { (db : Db) → result ≢ Ending.Usage → H.tells → HoldsIn (shown (H.world host.old).now.fs) db → NoneRose (H.counts host.old) (H.counts host.new) → IsComplete (has_excess (H.world host.old).input) result }

    // A script of statements that change nothing, over a directory without a leftover shadow, writes and syncs nothing.
    ensures idle { (db : Db) → result ≢ Ending.Usage → H.tells → HoldsIn (shown (H.world host.old).now.fs) db → shown (H.world host.old).now.fs shadow_name ≡ None → ChangesNothing db (statements (H.world host.old).input) → IsIdle (H.world host.old) (H.world host.new) }

    // The directory that is entered.
    ensures dir { H.tells → ((H.world host.new).dir ≡ None) ⊎ ((H.world host.new).dir ≡ dir_of (map string_bytes words.now.items)) }

    // Run on a directory that holds a database: at any moment, every image that a stop may leave holds the database after the
    // first k statements, where the answers to k - 1 of them are printed whole and nothing is printed past the k-th's.
    ensures headline { (db : Db) → H.tells → HoldsIn (shown (H.world host.old).now.fs) db → KeepsInOrder db (statements (H.world host.old).input) (H.world host.old) (H.world host.new) }

    // What is printed and held at each ending.
    ensures stands { (db : Db) → H.tells → HoldsIn (shown (H.world host.old).now.fs) db → StandsAt db result (H.world host.old) (H.world host.new) }
{
    match dir_of(words) {
        None => Ending::Usage,
        Some(dir) => run_in(alloc, dir, host),
    }
}

/// Runs the input over this directory.
fn run_in<H: Host>(alloc: Global, dir: &str, host: &mut H) -> Ending
    requires new { H.tells → (H.world host.old).dir ≡ None }
    requires at_rest { H.tells → IsAtRest (H.world host.old).now.fs }
    ensures formed { result ≢ Ending.Usage }
    ensures causes { IsCaused (H.counts host.old) (H.counts host.new) result }
    ensures dir { H.tells → ((H.world host.new).dir ≡ None) ⊎ ((H.world host.new).dir ≡ Some dir.now) }
    ensures told { H.tells → IsRun result (H.world host.old) (H.world host.new) }
{
    match host.enter(dir) {
        Err(_) => Ending::DiskFault,
        Ok(()) => run_entered(alloc, host),
    }
}

/// Runs the input over the directory that was entered.
fn run_entered<H: Host>(alloc: Global, host: &mut H) -> Ending
    requires entered { H.tells → IsSome (H.world host.old).dir }
    requires at_rest { H.tells → IsAtRest (H.world host.old).now.fs }
    ensures formed { result ≢ Ending.Usage }
    ensures causes { IsCaused (H.counts host.old) (H.counts host.new) result }
    ensures dir { H.tells → (H.world host.new).dir ≡ (H.world host.old).dir }
    ensures told { H.tells → IsRun result (H.world host.old) (H.world host.new) }
{
    let mut session = match Session::begin(alloc, host) {
        Ok(session) => session,
        Err(stop) => return Ending::from(stop),
    };
    match take_script(alloc, host) {
        Err(ending) => ending,
        Ok(taken) => answer_taken(alloc, host, &mut session, &taken),
    }
}

/// Answers what was taken of the input.
fn answer_taken<H: Host>(
    alloc: Global,
    host: &mut H,
    session: &mut Session,
    taken: &Taken,
) -> Ending
    requires open { IsOpen session.old }
    requires short { All (λ piece. length piece ≤ 2 ^ 20) taken.now.statements }
    requires stands { H.tells → StandsOver session.old (H.world host.old) }
    ensures causes { IsCaused (H.counts host.old) (H.counts host.new) result }
    ensures formed { result ≢ Ending.Usage }
    ensures told { H.tells → (db : Db) → IsSession session.old db (H.world host.old) → AnswersTaken result db taken.now (H.world host.old) (H.world host.new) }
    ensures only { H.tells → EntersNothing (H.world host.old) (H.world host.new) }
    ensures damage { H.tells → IfDamaged result (IsDamaged (shown (H.world host.new).now.fs)) }
{
    match answer_all(alloc, host, session, taken.statements.items()) {
        Err(ending) => ending,
        Ok(()) if taken.too_long => Ending::TooLong,
        Ok(()) => Ending::Done,
    }
}

/// The word DIR.
fn dir_of(words: &Vec<String>) -> Option<&str>
    ensures { option_copied result ≡ dir_of (map string_bytes words.now.items) }
{
    match words.as_slice() {
        [command, dir] if command.as_str() == "run" => Some(dir.as_str()),
        _ => None,
    }
}
