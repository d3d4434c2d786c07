// A list of calls, made one after the other.
#![tactic(auto)]

ghost use Rattle.std.specs.Prelude.{◌≡◌, length, MatchResult};
ghost use Rattle.refusals.specs.Answers.{Answered, WrongLength};
ghost use Rattle.hours.specs.Hours.{register_of};
ghost use Rattle.register.specs.Register.{fresh};
ghost use Rattle.call_lists.specs.Runs.{Called, OneRun, PhaseRun, ReplayRefused, Replayed, call_of};
ghost use Rattle.register.specs.Views.{phase_of};

mod calls;

pub use calls::Call;
use hours::{Hour, weigh_making};
use positions::{BusPosition, Transaction};
use refusals::Cause;
use register::{Accepted, Answer, OpenPhase};

// Makes a list of calls on a new hour over the slices that the caller lends, and writes the answer to each.
// The second closing that is taken ends the list: then it answers how many calls were made.
// The answers stand in a row that the caller lends, since an hour has no heap.
pub fn replay(
    buses: u16,
    positions: &mut [BusPosition],
    transactions: &mut [Transaction],
    calls: &[Call],
    answers: &mut [Answer],
) -> Result<Option<usize>, Cause>
    ensures answer { Answered (ReplayRefused (length answers.old) (length calls.now)
        buses (length positions.old) (length transactions.old)) result }
    ensures replayed { MatchResult result
        (Replayed (fresh buses (length positions.old) (length transactions.old))
        calls.now answers.old answers.new)
        (λ _. answers.new ≡ answers.old) }
    ensures fixed { OneRun }
{
    // one test and its cause: no plainer as a function of its own
    if answers.len() != calls.len() {
        return Err(Cause::RowLength);
    }
    weigh_making(buses, positions, transactions)?;
    let mut hour = Hour::new(buses, positions, transactions);
    let Some(first) = make_calls(&mut hour, calls, answers) else {
        return Ok(None);
    };
    let mut hour = hour.close();
    let Some(second) = make_calls(&mut hour, &calls[first + 1..], &mut answers[first + 1..]) else {
        return Ok(None);
    };
    let _ = hour.close();
    Ok(Some(first + 1 + (second + 1)))
}

// Makes a list of calls on an open hour, and writes the answer to each. A closing that may be taken ends the list: its place is
// answered, and the caller goes over.
pub fn run_calls<P: OpenPhase>(
    hour: &mut Hour<P>,
    calls: &[Call],
    answers: &mut [Answer],
) -> Result<Option<usize>, Cause>
    ensures answer { Answered (WrongLength (length answers.old) (length calls.now)) result }
    ensures run { MatchResult result
        (λ at. PhaseRun (register_of hour.old) (phase_of P.closings)
        calls.now answers.old at answers.new (register_of hour.new))
        (λ _. (answers.new ≡ answers.old) × (register_of hour.new ≡ register_of hour.old)) }
{
    // one test and its cause: no plainer as a function of its own
    if answers.len() != calls.len() {
        return Err(Cause::RowLength);
    }
    Ok(make_calls(hour, calls, answers))
}

fn make_calls<P: OpenPhase>(
    hour: &mut Hour<P>,
    calls: &[Call],
    answers: &mut [Answer],
) -> Option<usize>
    requires { length answers.old ≡ length calls.now }
    ensures { PhaseRun (register_of hour.old) (phase_of P.closings)
        calls.now answers.old result answers.new (register_of hour.new) }
{
    // Each answer is written at its place: after a zip with `iter_mut` nothing can be proved of what the row holds.
    for (i, &call) in calls.iter().enumerate() {
        let Some(answer) = make_call(hour, call) else {
            answers[i] = Ok(Accepted::Taken);
            return Some(i);
        };
        answers[i] = answer;
    }
    None
}

// Makes one call, and answers it; a closing that may be taken is left to the caller, who goes over.
pub fn make_call<P: OpenPhase>(hour: &mut Hour<P>, call: Call) -> Option<Answer>
    ensures { Called (register_of hour.old) (phase_of P.closings) (call_of call.entry)
        result (register_of hour.new) }
{
    match call {
        Call::Post {
            participant,
            class,
            bus,
            tenths,
        } => Some(
            hour.post(participant, class, bus, tenths)
                .map(Accepted::RecordNumber),
        ),
        Call::PostTransaction {
            participant,
            source,
            sink,
            tenths,
        } => Some(
            hour.post_transaction(participant, source, sink, tenths)
                .map(Accepted::RecordNumber),
        ),
        Call::PostArea {
            participant,
            tenths,
            members,
        } => Some(
            hour.post_area(participant, tenths, members)
                .map(Accepted::RecordNumber),
        ),
        Call::AmendPosition { record, tenths } => Some(
            hour.amend_position(record, tenths)
                .map(|()| Accepted::Taken),
        ),
        Call::AmendTransaction { record, tenths } => Some(
            hour.amend_transaction(record, tenths)
                .map(|()| Accepted::Taken),
        ),
        Call::Close => hour.weigh_closing().err().map(Err),
    }
}
