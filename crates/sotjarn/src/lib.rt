// The calls for programs in other languages: an answer is a struct of numbers, and a buffer its address and its length in words, of strings in bytes.
// bindings/c/sotjarn.h declares them for C.
#![tactic(auto)]

ghost use Rattle.std.specs.Prelude.{◌≡◌};
ghost use Rattle.turns.specs.Surveys.{survey_of};
ghost use Rattle.turns.specs.Opening.{open_of};
ghost use Rattle.turns.specs.Turns.{turn_of, turn_input};
ghost use Rattle.merges.specs.Merging.{merge_input, merge_of};
ghost use Rattle.register_reports.specs.Reporting.{report_input, report_of};
ghost use Rattle.list_limits.specs.PlanOutputs.{plan_output};
ghost use Rattle.uploads.specs.Making.{make_input, make_of};
ghost use Rattle.views.specs.Viewing.{view_input, view_call_of};
ghost use Rattle.woods.specs.Growing.{grow_input, grow_of};
ghost use Rattle.queues.specs.Lists.{lent_as};
ghost use Rattle.queues.specs.Joining.{join_queue_of};
ghost use Rattle.queues.specs.Serving.{serve_of};
ghost use Rattle.queues.specs.ToppingUp.{top_up_of};
ghost use Rattle.calls.specs.Calls.{result_of_call};
ghost use Rattle.dictionary_numberings.specs.NumberCall.{number_buffers, number_input, number_call};
ghost use Rattle.dictionary_lookups.specs.Finding.{find_input, find_call};
ghost use Rattle.dictionary_lookups.specs.Lending.{string_input, string_call};
ghost use Rattle.call_numbers.specs.Numbers.{written_numbers, turned_numbers, made_numbers, queued_numbers, service_numbers, tables_numbers};
ghost use Rattle.call_numbers.specs.Numbers.{kind_of, numbered_numbers, found_numbers, bounds_numbers};

use call_numbers::kind_of;
pub use call_numbers::{
    ABSENT, BoundsNumbers, DONE, FULL, FoundNumbers, MadeNumbers, NAMES, NumberedNumbers, PRESENT,
    QueuedNumbers, REFUSED, SPENT, ServiceNumbers, TEXTS, TablesNumbers, TurnedNumbers,
    WrittenNumbers,
};
use queues::Entry;

// Writes the start state of a query to `state`, or refuses.
#[unsafe(no_mangle)]
pub extern "C" fn sotjarn_open(
    rows: &[u32],
    pos: &[u32],
    osp: &[u32],
    survey: u32,
    plan: &[u32],
    state: &mut [u32],
) -> WrittenNumbers
    ensures answer { result ≡ written_numbers (open_of (survey_of rows.now pos.now osp.now survey) plan.now
        state.old).answer }
    ensures state { state.new
        ≡ (open_of (survey_of rows.now pos.now osp.now survey) plan.now state.old).buffers }
{
    WrittenNumbers::from(turn_calls::open(rows, pos, osp, survey, plan, state))
}

// Runs one turn of a query from its state, the first `given` words of `state`, or refuses.
#[unsafe(no_mangle)]
pub extern "C" fn sotjarn_turn(
    rows: &[u32],
    pos: &[u32],
    osp: &[u32],
    survey: u32,
    plan: &[u32],
    state: &mut [u32],
    given: usize,
    quantum: u32,
    threshold: &[u32],
    output: &mut [u32],
) -> TurnedNumbers
    ensures answer { result ≡ turned_numbers (turn_of (turn_input rows.now pos.now osp.now survey plan.now
        state.old given quantum threshold.now output.old)).answer }
    ensures state { state.new
        ≡ (turn_of (turn_input rows.now pos.now osp.now survey plan.now state.old given quantum
        threshold.now output.old)).buffers.state }
    ensures output { output.new
        ≡ (turn_of (turn_input rows.now pos.now osp.now survey plan.now state.old given quantum
        threshold.now output.old)).buffers.output }
{
    TurnedNumbers::from(turn_calls::turn(
        rows, pos, osp, survey, plan, state, given, quantum, threshold, output,
    ))
}

// Merges `list` into the kept one, the first `given` words of `kept`, or refuses.
#[unsafe(no_mangle)]
pub extern "C" fn sotjarn_merge(
    plan: &[u32],
    kept: &mut [u32],
    given: usize,
    list: &[u32],
) -> WrittenNumbers
    ensures answer { result ≡ written_numbers (merge_of (merge_input plan.now kept.old given list.now)).answer }
    ensures kept { kept.new ≡ (merge_of (merge_input plan.now kept.old given list.now)).buffers }
{
    WrittenNumbers::from(merge_calls::merge(plan, kept, given, list))
}

// Writes to `report` how many registers of the kept list, the first `given` words of `kept`, have each value, or refuses.
#[unsafe(no_mangle)]
pub extern "C" fn sotjarn_report(kept: &[u32], given: usize, report: &mut [u32]) -> WrittenNumbers
    ensures answer { result ≡ written_numbers (report_of (report_input kept.now given report.old)).answer }
    ensures report { report.new ≡ (report_of (report_input kept.now given report.old)).buffers }
{
    WrittenNumbers::from(register_reports::report(kept, given, report))
}

// The fewest words that a turn's output may have for `plan`, which test 7 asks for, or the number of the test that refuses the plan.
#[unsafe(no_mangle)]
pub extern "C" fn sotjarn_least_output(plan: &[u32]) -> WrittenNumbers
    ensures { result ≡ written_numbers (plan_output plan.now) }
{
    WrittenNumbers::from(list_limits::plan_output(plan))
}

// Makes tables from `upload`, and a report of the rows that it drops, or refuses.
#[unsafe(no_mangle)]
pub extern "C" fn sotjarn_make(
    upload: &[u32],
    rows: &mut [u32],
    pos: &mut [u32],
    osp: &mut [u32],
    report: &mut [u32],
) -> MadeNumbers
    ensures answer { result ≡ made_numbers (make_of (make_input upload.now rows.old pos.old osp.old
        report.old)).answer }
    ensures rows { rows.new ≡ (make_of (make_input upload.now rows.old pos.old osp.old
        report.old)).buffers.rows }
    ensures pos { pos.new ≡ (make_of (make_input upload.now rows.old pos.old osp.old
        report.old)).buffers.pos }
    ensures osp { osp.new ≡ (make_of (make_input upload.now rows.old pos.old osp.old
        report.old)).buffers.osp }
    ensures report { report.new ≡ (make_of (make_input upload.now rows.old pos.old osp.old
        report.old)).buffers.report }
{
    MadeNumbers::from(upload_calls::make(upload, rows, pos, osp, report))
}

// A query of `owner` joins the queue: the line with steps, the list set aside without; or it is refused.
#[unsafe(no_mangle)]
pub extern "C" fn sotjarn_join(
    rows: &[u32],
    pos: &[u32],
    osp: &[u32],
    survey: u32,
    line: &mut [Entry],
    given: usize,
    aside: &mut [Entry],
    kept: usize,
    owner: u32,
    allowance: u64,
    plan: &[u32],
    state: &[u32],
) -> QueuedNumbers
    ensures { (result ≡ queued_numbers (join_queue_of (survey_of rows.now pos.now osp.now survey)
        (lent_as line.old given aside.old kept)
        (record { owner = owner; allowance = allowance; plan = plan.now; state = state.now })).answer)
        × ((line.new ≡ (join_queue_of (survey_of rows.now pos.now osp.now survey)
        (lent_as line.old given aside.old kept)
        (record { owner = owner; allowance = allowance; plan = plan.now; state = state.now })).buffers.line)
        × (aside.new ≡ (join_queue_of (survey_of rows.now pos.now osp.now survey)
        (lent_as line.old given aside.old kept)
        (record { owner = owner; allowance = allowance; plan = plan.now; state = state.now })).buffers.aside)) }
{
    QueuedNumbers::from(queue_joins::join(
        rows, pos, osp, survey, line, given, aside, kept, owner, allowance, plan, state,
    ))
}

// Runs one turn of the query at the front of the line, for at most `quantum` steps, or refuses.
#[unsafe(no_mangle)]
pub extern "C" fn sotjarn_serve(
    rows: &[u32],
    pos: &[u32],
    osp: &[u32],
    survey: u32,
    line: &mut [Entry],
    given: usize,
    aside: &mut [Entry],
    kept: usize,
    quantum: u32,
    threshold: &[u32],
    output: &mut [u32],
) -> ServiceNumbers
    ensures { (result ≡ service_numbers (serve_of (survey_of rows.now pos.now osp.now survey)
        (lent_as line.old given aside.old kept)
        (record { quantum = quantum; threshold = threshold.now; output = output.old })).answer)
        × ((line.new ≡ (serve_of (survey_of rows.now pos.now osp.now survey)
        (lent_as line.old given aside.old kept)
        (record { quantum = quantum; threshold = threshold.now; output = output.old })).buffers.line)
        × ((aside.new ≡ (serve_of (survey_of rows.now pos.now osp.now survey)
        (lent_as line.old given aside.old kept)
        (record { quantum = quantum; threshold = threshold.now; output = output.old })).buffers.aside)
        × (output.new ≡ (serve_of (survey_of rows.now pos.now osp.now survey)
        (lent_as line.old given aside.old kept)
        (record { quantum = quantum; threshold = threshold.now; output = output.old })).buffers.output))) }
{
    ServiceNumbers::from(queue_serves::serve(
        rows, pos, osp, survey, line, given, aside, kept, quantum, threshold, output,
    ))
}

// Brings the query of `owner` that is set aside back to the end of the line, with `amount` steps, or refuses.
#[unsafe(no_mangle)]
pub extern "C" fn sotjarn_top_up(
    line: &mut [Entry],
    given: usize,
    aside: &mut [Entry],
    kept: usize,
    owner: u32,
    amount: u64,
) -> QueuedNumbers
    ensures { (result ≡ queued_numbers (top_up_of (lent_as line.old given aside.old kept) owner amount).answer)
        × ((line.new ≡ (top_up_of (lent_as line.old given aside.old kept) owner amount).buffers.line)
        × (aside.new ≡ (top_up_of (lent_as line.old given aside.old kept) owner amount).buffers.aside)) }
{
    QueuedNumbers::from(queue_joins::top_up(line, given, aside, kept, owner, amount))
}

// Writes the tables of the rows that an adviser's `grant` makes visible, or refuses.
#[unsafe(no_mangle)]
pub extern "C" fn sotjarn_view(
    rows: &[u32],
    pos: &[u32],
    osp: &[u32],
    grant: &[u32],
    membership: u32,
    view_rows: &mut [u32],
    view_pos: &mut [u32],
    view_osp: &mut [u32],
) -> TablesNumbers
    ensures answer { result ≡ tables_numbers (view_call_of (view_input rows.now pos.now osp.now grant.now
        membership view_rows.old view_pos.old view_osp.old)).answer }
    ensures rows { view_rows.new ≡ (view_call_of (view_input rows.now pos.now osp.now
        grant.now membership view_rows.old view_pos.old view_osp.old)).buffers.rows }
    ensures pos { view_pos.new ≡ (view_call_of (view_input rows.now pos.now osp.now
        grant.now membership view_rows.old view_pos.old view_osp.old)).buffers.pos }
    ensures osp { view_osp.new ≡ (view_call_of (view_input rows.now pos.now osp.now
        grant.now membership view_rows.old view_pos.old view_osp.old)).buffers.osp }
{
    TablesNumbers::from(view_calls::view(
        rows, pos, osp, grant, membership, view_rows, view_pos, view_osp,
    ))
}

// Writes the wood of `seed`, with `stems` stems in the year `year`, or refuses.
#[unsafe(no_mangle)]
pub extern "C" fn sotjarn_grow(
    seed: u32,
    stems: u32,
    year: u32,
    rows: &mut [u32],
    pos: &mut [u32],
    osp: &mut [u32],
) -> TablesNumbers
    ensures answer { result ≡ tables_numbers (grow_of (grow_input seed stems year rows.old pos.old osp.old)).answer }
    ensures rows { rows.new
        ≡ (grow_of (grow_input seed stems year rows.old pos.old osp.old)).buffers.rows }
    ensures pos { pos.new
        ≡ (grow_of (grow_input seed stems year rows.old pos.old osp.old)).buffers.pos }
    ensures osp { osp.new
        ≡ (grow_of (grow_input seed stems year rows.old pos.old osp.old)).buffers.osp }
{
    TablesNumbers::from(wood_calls::grow(seed, stems, year, rows, pos, osp))
}

// Numbers strings of a kind, 0 for names and any other number for texts, in any order and as often as they come: writes the dictionary of them to `out`
// and `cuts`, and each one's number to `numbers`; or refuses. It works in `numbers` and `places`.
#[unsafe(no_mangle)]
pub extern "C" fn sotjarn_number(
    kind: u32,
    bytes: &[u8],
    ends: &[u32],
    out: &mut [u8],
    cuts: &mut [u32],
    numbers: &mut [u32],
    places: &mut [u32],
) -> NumberedNumbers
    ensures answer { result ≡ numbered_numbers (result_of_call number_call (number_input (kind_of kind) bytes.now ends.now
        (number_buffers out.old cuts.old numbers.old places.old))).answer }
    ensures bytes { out.new ≡ (result_of_call number_call (number_input (kind_of kind) bytes.now ends.now
        (number_buffers out.old cuts.old numbers.old places.old))).buffers.bytes }
    ensures ends { cuts.new ≡ (result_of_call number_call (number_input (kind_of kind) bytes.now ends.now
        (number_buffers out.old cuts.old numbers.old places.old))).buffers.ends }
    ensures numbers { numbers.new ≡ (result_of_call number_call (number_input (kind_of kind) bytes.now ends.now
        (number_buffers out.old cuts.old numbers.old places.old))).buffers.numbers }
    ensures places { places.new ≡ (result_of_call number_call (number_input (kind_of kind) bytes.now ends.now
        (number_buffers out.old cuts.old numbers.old places.old))).buffers.places }
{
    NumberedNumbers::from(dictionary_numbers::number(
        kind_of(kind),
        bytes,
        ends,
        out,
        cuts,
        numbers,
        places,
    ))
}

// The number of `sought` in a dictionary of names or of texts, or how many of its strings come before it; or refuses.
#[unsafe(no_mangle)]
pub extern "C" fn sotjarn_find(kind: u32, bytes: &[u8], ends: &[u32], sought: &[u8]) -> FoundNumbers
    ensures { result ≡ found_numbers (result_of_call find_call (find_input (kind_of kind) bytes.now ends.now
        sought.now)).answer }
{
    FoundNumbers::from(dictionary_lookups::find(kind_of(kind), bytes, ends, sought))
}

// Where the string with the number `number` starts in the bytes of a dictionary, and where it ends; or refuses.
#[unsafe(no_mangle)]
pub extern "C" fn sotjarn_string(
    kind: u32,
    bytes: &[u8],
    ends: &[u32],
    number: usize,
) -> BoundsNumbers
    ensures { result
        ≡ bounds_numbers (result_of_call string_call (string_input (kind_of kind) bytes.now ends.now number)).answer }
{
    BoundsNumbers::from(dictionary_lookups::string(kind_of(kind), bytes, ends, number))
}
