// What a line of a script does to a board's lent memory and to its state, and what it is answered with. The page of scripts is the definition; what a
// line says comes from `lines`, and the replies are printed by the program `replay`.
// What is done to the lent memory itself is in `desk_lays`, and the estimator's calls are in `desk_calls`.
#![tactic(auto)]

ghost use Rattle.std.specs.Prelude.{◌≡◌};
ghost use Rattle.rules.specs.Slices.{before, after};
ghost use Rattle.desk.specs.Desk.{changed, silent, line_does};

use desk_calls::{Done, Reply, block, enter, leave, read, start, state_in};
use desk_lays::lay;
use kinds::{Horizon, State};
use lines::Line;
use page::Operation;

// What a line without an answer has done.
fn silent(state: State) -> Done
    ensures { result ≡ silent state }
{
    Done {
        reply: Reply::Silent,
        state,
    }
}

// What a line with these bytes does to a board's lent memory and state, if it fits. A line that only asks does nothing here.
pub fn change(
    line: Option<Line>,
    state: State,
    text: &[u8],
    pending: &mut [u8],
    recent: &mut [u8],
    confirmed: &mut [f64],
    resolved: &mut [f64],
    on: Horizon,
) -> Option<Done>
    ensures { changed result (after confirmed resolved pending recent)
        ≡ line_does on line state text.now (before confirmed resolved pending recent) }
{
    let line = line?;
    let done = match line.operation {
        Operation::State => silent(state_in(line)),
        Operation::Start => start(state, pending, recent, confirmed, resolved, on),
        Operation::Enter => enter(line, state, text, pending, on),
        Operation::Leave => leave(state, text, pending, on),
        Operation::Block | Operation::BlockRaw => {
            block(line, state, text, pending, recent, confirmed, resolved, on)
        }
        Operation::Read | Operation::Again => {
            read(state, text, pending, recent, confirmed, resolved, on)
        }
        _ => {
            return lay(line, text, pending, recent, confirmed, resolved).then_some(silent(state));
        }
    };
    Some(done)
}
