//! Turns of workers one by one, without threads, and what their journal comes to.
ghost use Rattle.std.specs.Prelude.{◌≡◌, ◌<◌, ◌≤◌, All, IfSome, length};
ghost use Rattle.pp_stop.specs.Seats.{IsSeatOf};
ghost use Rattle.pp_cell.specs.Passes.{IsPassOf, pass_space};

use super::cells::{cell_of, journal_of};
use super::heights::{Heights, Span};
use pp_cell::{Act, Cell, Entry, Pass, ReportOf};
use pp_deal::{Hand, Peek, hands};
use pp_stop::{Stop, StopSeat};
use pp_worker::{Desk, OpenGate, Turned, turn};
use std::alloc::Global;
use std::process::Abort;
use std::sync::Wait;

/// A worker at its desk, and what all workers share.
#[derive(Drop)]
struct Seated<'a, 'b> {
    space: &'a Heights,
    cell: &'b Cell<'a, Heights>,
    stop: &'b Stop,
    desk: Desk<'a, Heights>,
    ghost in_space: { space.now ≡ pass_space desk.pass },
    ghost at_cell: { IsPassOf cell.now desk.pass },
    ghost at_stop: { IsSeatOf stop.now desk.seat },
}

/// A stop word, and so many seats at it.
fn stop_of(rt: &impl Abort, alloc: Global, count: u32) -> (Stop, Vec<StopSeat>)
    requires { (1 ≤ count) × (count ≤ 65) }
    ensures { All (IsSeatOf result.0) result.1.items }
{
    Stop::new(alloc, count).expect(rt, "memory")
}

/// A hand that has offered nothing.
fn hand_of(rt: &impl Abort, alloc: Global) -> Hand<Span> {
    hands(alloc, 1).expect(rt, "memory").remove(0)
}

/// A hand that has offered the span.
fn hand_with(rt: &impl Abort, alloc: Global, root: Span) -> Hand<Span> {
    let mut hand = hand_of(rt, alloc);
    assert!(rt; hand.offer(root).is_ok());
    hand
}

/// A worker's hand, and its peeks at the hands of others.
#[derive(Drop)]
struct Dealt {
    hand: Hand<Span>,
    peeks: Vec<Peek<Span>>,
}

/// A peek at the hand.
fn peeks_at(rt: &impl Abort, alloc: Global, hand: &mut Hand<Span>) -> Vec<Peek<Span>> {
    let peek = hand.peek().expect(rt, "memory");
    vec![in alloc; peek].expect(rt, "memory")
}

/// The hand of one worker, which has the span.
fn deal_one(rt: &impl Abort, alloc: Global, root: Span) -> Dealt {
    Dealt {
        hand: hand_with(rt, alloc, root),
        peeks: Vec::new(alloc),
    }
}

/// The hands of two workers, of whom the first one has the span.
fn deal_two(rt: &impl Abort, alloc: Global, root: Span) -> (Dealt, Dealt) {
    let mut first = hand_with(rt, alloc, root);
    let mut second = hand_of(rt, alloc);
    let of_first = peeks_at(rt, alloc, &mut second);
    let of_second = peeks_at(rt, alloc, &mut first);
    (
        Dealt {
            hand: first,
            peeks: of_first,
        },
        Dealt {
            hand: second,
            peeks: of_second,
        },
    )
}

/// The worker who has this pass, this seat and what was dealt.
fn sit<'a, 'b>(
    rt: &impl Abort,
    alloc: Global,
    space: &'a Heights,
    cell: &'b Cell<'a, Heights>,
    stop: &'b Stop,
    pass: Pass<'a, Heights>,
    seat: StopSeat,
    dealt: Dealt,
) -> Seated<'a, 'b>
    requires space { space.now ≡ pass_space pass }
    requires pass { IsPassOf cell.now pass }
    requires seat { IsSeatOf stop.now seat }
    ensures { result.cell.now ≡ cell.now }
{
    let worker = pass.number();
    let Dealt { hand, peeks } = dealt;
    let desk = Desk::new(alloc, space, worker, pass, seat, hand, peeks).expect(rt, "memory");
    Seated {
        space,
        cell,
        stop,
        desk,
    }
}

/// One turn of the worker.
fn step<'a, 'b, R: Abort + Wait>(rt: &R, alloc: Global, worker: &mut Seated<'a, 'b>) -> Turned
    ensures { worker.new.cell ≡ worker.old.cell }
{
    let turned = turn(
        rt,
        alloc,
        worker.space,
        worker.cell,
        worker.stop,
        &mut worker.desk,
        &OpenGate,
    );
    turned.expect(rt, "memory")
}

/// The worker's pass, for whoever wants the journal.
fn released<'a, 'b>(worker: Seated<'a, 'b>) -> Pass<'a, Heights>
    ensures { IsPassOf worker.entry.cell.now result }
{
    let Seated { desk, .. } = worker;
    let Desk { pass, .. } = desk;
    pass
}

/// Turns until there is nothing left to do: how many of them reported.
fn turns<'a, 'b, R: Abort + Wait>(rt: &R, alloc: Global, worker: &mut Seated<'a, 'b>) -> u32
    ensures { worker.new.cell ≡ worker.old.cell }
{
    for reports in 0..1000 {
        if step(rt, alloc, worker) != Turned::Worked {
            return reports;
        }
    }
    panic!(rt; "turns without end")
}

/// How many reports one worker makes of the span, and its pass.
fn worked_alone<'a, R: Abort + Wait>(
    rt: &R,
    alloc: Global,
    space: &'a Heights,
    cell: &Cell<'a, Heights>,
    pass: Pass<'a, Heights>,
    root: Span,
) -> (u32, Pass<'a, Heights>)
    requires space { space.now ≡ pass_space pass }
    requires pass { IsPassOf cell.now pass }
    ensures { IsPassOf cell.now result.1 }
{
    let (stop, mut seats) = stop_of(rt, alloc, 1);
    let seat = seats.pop().expect(rt, "a seat");
    let dealt = deal_one(rt, alloc, root);
    let mut worker = sit(rt, alloc, space, cell, &stop, pass, seat, dealt);
    let reports = turns(rt, alloc, &mut worker);
    (reports, released(worker))
}

/// How many reports one worker makes of the span, and the journal.
fn searched_alone<R: Abort + Wait>(
    rt: &R,
    alloc: Global,
    root: Span,
) -> (u32, Vec<Entry<Heights>>) {
    let space = Heights { alloc };
    let (cell, mut passes) = cell_of(alloc, &space, root, 1).expect(rt, "memory");
    let pass = passes.pop().expect(rt, "a pass");
    let (reports, pass) = worked_alone(rt, alloc, &space, &cell, pass, root);
    let passes = vec![in alloc; pass].expect(rt, "memory");
    (
        reports,
        journal_of(cell, passes, 1).expect(rt, "all passes"),
    )
}

/// Whether the turn reported, as a number.
fn reports_of(turned: Turned) -> u32
    ensures { result ≤ 1 }
{
    match turned {
        Turned::Worked => 1,
        Turned::Stopped => 0,
        Turned::Idle => 0,
    }
}

/// One turn of each of two workers: how many of them reported.
fn round<'a, 'b, R: Abort + Wait>(
    rt: &R,
    alloc: Global,
    one: &mut Seated<'a, 'b>,
    two: &mut Seated<'a, 'b>,
) -> u32
    ensures one { one.new.cell ≡ one.old.cell }
    ensures two { two.new.cell ≡ two.old.cell }
{
    let first = reports_of(step(rt, alloc, one));
    let second = reports_of(step(rt, alloc, two));
    first + second
}

/// Rounds until nobody has anything left to do: how many turns reported.
fn rounds<'a, 'b, R: Abort + Wait>(
    rt: &R,
    alloc: Global,
    one: &mut Seated<'a, 'b>,
    two: &mut Seated<'a, 'b>,
) -> u32
    ensures one { one.new.cell ≡ one.old.cell }
    ensures two { two.new.cell ≡ two.old.cell }
{
    let mut reports: u32 = 0;
    for _ in 0..1000 {
        let more = round(rt, alloc, one, two);
        if more == 0 {
            return reports;
        }
        reports = reports.wrapping_add(more);
    }
    panic!(rt; "rounds without end")
}

/// A stop word, and the seats of two workers at it.
fn stop_of_two(rt: &impl Abort, alloc: Global) -> (Stop, StopSeat, StopSeat)
    ensures one { IsSeatOf result.0 result.1 }
    ensures two { IsSeatOf result.0 result.2 }
{
    let (stop, mut seats) = stop_of(rt, alloc, 2);
    let two = seats.pop().expect(rt, "a seat");
    let one = seats.pop().expect(rt, "a seat");
    (stop, one, two)
}

/// How many reports two workers make of the span in turn, and their passes.
fn worked_by_two<'a, R: Abort + Wait>(
    rt: &R,
    alloc: Global,
    space: &'a Heights,
    cell: &Cell<'a, Heights>,
    one: Pass<'a, Heights>,
    two: Pass<'a, Heights>,
    root: Span,
) -> (u32, Pass<'a, Heights>, Pass<'a, Heights>)
    requires spaces { (space.now ≡ pass_space one) × (space.now ≡ pass_space two) }
    requires one { IsPassOf cell.now one }
    requires two { IsPassOf cell.now two }
    ensures one { IsPassOf cell.now result.1 }
    ensures two { IsPassOf cell.now result.2 }
{
    let (stop, seat, seat_two) = stop_of_two(rt, alloc);
    let (first, second) = deal_two(rt, alloc, root);
    let mut one = sit(rt, alloc, space, cell, &stop, one, seat, first);
    let mut two = sit(rt, alloc, space, cell, &stop, two, seat_two, second);
    let reports = rounds(rt, alloc, &mut one, &mut two);
    (reports, released(one), released(two))
}

/// How many reports two workers make of the span in turn, and the journal.
fn searched_by_two<R: Abort + Wait>(
    rt: &R,
    alloc: Global,
    root: Span,
) -> (u32, Vec<Entry<Heights>>) {
    let space = Heights { alloc };
    let (cell, mut passes) = cell_of(alloc, &space, root, 2).expect(rt, "memory");
    let two = passes.pop().expect(rt, "a pass");
    let one = passes.pop().expect(rt, "a pass");
    let (reports, one, two) = worked_by_two(rt, alloc, &space, &cell, one, two, root);
    let passes = vec![in alloc; one, two].expect(rt, "memory");
    (
        reports,
        journal_of(cell, passes, 2).expect(rt, "all passes"),
    )
}

/// Where the span stands among these.
fn place_of(spans: &[Span], span: &Span) -> Option<usize>
    ensures { IfSome result (λ i. i < length spans.now) }
{
    for i in 0..spans.len() {
        if spans[i] == *span {
            return Some(i);
        }
    }
    None
}

/// Takes the span out of those that are live. Whether it was live.
fn is_taken(live: &mut Vec<Span>, span: &Span) -> bool {
    match place_of(live.as_slice(), span) {
        Some(i) => {
            live.remove(i);
            true
        }
        None => false,
    }
}

/// Whether the report is of a live span. The span is live no more then, and what is left of it is.
fn is_replayed(rt: &impl Abort, live: &mut Vec<Span>, task: &Span, rest: &[Span]) -> bool {
    let is_live = is_taken(live, task);
    if is_live {
        live.extend_from_slice(rest).expect(rt, "memory");
    }
    is_live
}

/// The greatest of all heights that were reported of the root, and whether nothing is left of it. None where a report
/// that was taken is of a span that wasn't live.
fn replayed(
    rt: &impl Abort,
    alloc: Global,
    root: Span,
    journal: &[Entry<Heights>],
) -> Option<(u32, bool)> {
    let mut live = vec![in alloc; root].expect(rt, "memory");
    let mut top = 0;
    for entry in journal {
        if let Act::Reported(
            ReportOf {
                task,
                rest,
                found,
                ..
            },
        ) = &entry.act
        {
            if !is_replayed(rt, &mut live, task, rest.as_slice()) {
                return None;
            }
            top = top.max(*found);
        }
    }
    Some((top, live.is_empty()))
}

/// How many entries are of reports.
fn reports_in(journal: &[Entry<Heights>]) -> u32 {
    let mut count: u32 = 0;
    for entry in journal {
        count = match &entry.act {
            Act::Reported(_) => count.wrapping_add(1),
            Act::Stale(_) => count.wrapping_add(1),
            Act::Looked => count,
        };
    }
    count
}

/// What the journal says: how many reports and entries there are, and what is replayed of them.
fn read(
    rt: &impl Abort,
    alloc: Global,
    root: Span,
    journal: &[Entry<Heights>],
) -> (u32, usize, Option<(u32, bool)>) {
    (
        reports_in(journal),
        journal.len(),
        replayed(rt, alloc, root, journal),
    )
}

#[test]
fn each_turn_of_one_worker_is_a_report_until_nothing_is_left(rt: HostRuntime) {
    // 200 numbers, then the two halves of the other 800.
    let root = Span {
        low: 0,
        high: 1_000,
    };
    let (reports, journal) = searched_alone(&rt, rt.alloc(), root);
    let read = read(&rt, rt.alloc(), root, &journal);
    // The last report is followed by a look.
    assert_eq!(rt; (reports, read), (3, (3, 4, Some((999_086, true)))));
}

#[test]
fn the_journal_of_two_workers_comes_to_the_greatest_height(rt: HostRuntime) {
    for (high, wanted) in [
        (1_000, (999_086, true)),
        (20_000, (999_959, true)),
        (200_000, (1_000_000, false)),
    ] {
        let root = Span { low: 0, high };
        let (reports, journal) = searched_by_two(&rt, rt.alloc(), root);
        let (in_journal, _, found) = read(&rt, rt.alloc(), root, &journal);
        assert_eq!(rt; (in_journal, found), (reports, Some(wanted)), "{high}");
    }
}
