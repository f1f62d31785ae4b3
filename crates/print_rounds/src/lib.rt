// An opened query: its turns until it is done, each printed, and then its merged list.
#![tactic(auto)]

ghost use Rattle.std.specs.Prelude.{◌≡◌, [], ◌<◌, length};
ghost use Rattle.turns.specs.Turns.{turn_input};
ghost use Rattle.queries.specs.declared.Keeping.TheVariants.{Merged};
ghost use Rattle.queries.specs.Stepping.{take_turn_of};
ghost use Rattle.queries.specs.Rounds.{buffers, standing_of, first_position, rounds, result_at};
ghost use Rattle.queries.specs.Playing.{StandsAfter, Started};
ghost use Rattle.print_writing.specs.Listings.{ListsOf};
ghost use Rattle.print_writing.specs.FileQueries.{file_number, lent_survey, Asks, output_room};
ghost use Rattle.print_writing.specs.Shown.{most_turns, CanOpen};

use print_showing::{print_played, print_shown};
use print_writing::{Listing, lists_of};
use queries::{Keeping, Played, Went};
use turn_calls::STATE_WORDS;

// The number that a file's tables stand under.
pub const SURVEY: u32 = 0;

// The rows or records that the output holds.
pub const OUTPUT_RECORDS: usize = 64;

// Turns are counted in 64 bits. A query of more turns would not come to its end in any lifetime, so the loop's test always passes.
pub const MOST_TURNS: u64 = 18446744073709551615;

// One turn of a file's query and its list, printed, from where the query stands after `made` turns.
fn print_step(
    rt: &(impl Print + Eprint),
    bytes: &[u8],
    rows: &[u32],
    pos: &[u32],
    osp: &[u32],
    plan: &[u32],
    state: &mut [u32],
    saved: usize,
    quantum: u32,
    output: &mut [u32],
    kept: &mut [u32],
    used: usize,
    lists: Listing,
    made: u64,
) -> Went
    requires lists_of { ListsOf plan.now lists }
    requires can_open { CanOpen (lent_survey rows.now pos.now osp.now) plan.now }
    requires made_lt_most_turns { (made < most_turns) × StandsAfter (lent_survey rows.now pos.now osp.now) plan.now quantum (length output.old) made
        state.old saved }
    requires asks { Asks bytes.now rows.now pos.now osp.now plan.now quantum × (length output.old ≡ output_room plan.now) }
    ensures { record { went = result; held = buffers state.new output.new kept.new }
        ≡ standing_of (take_turn_of Merged (turn_input rows.now pos.now osp.now file_number plan.now
        state.old saved quantum [] output.old) kept.old used) }
{
    let step = query_turns::take_turn(
        rows,
        pos,
        osp,
        SURVEY,
        plan,
        state,
        saved,
        quantum,
        output,
        kept,
        used,
        Keeping::Merged,
    );
    let turned = step.turned;
    let listed = turned.listed;
    let number = made + 1;
    print_shown(rt, bytes, number, turned, &output[..listed], lists);
    query_turns::outcome(step)
}

// The turns from an opening's state on, each printed: the loop of `query_plays::play`, with the rows of a turn printed where that keeps them.
fn go_on(
    rt: &(impl Print + Eprint),
    bytes: &[u8],
    rows: &[u32],
    pos: &[u32],
    osp: &[u32],
    plan: &[u32],
    quantum: u32,
    state: &mut [u32],
    opened: usize,
    output: &mut [u32],
    kept: &mut [u32],
    lists: Listing,
) -> Played
    requires lists_of { ListsOf plan.now lists }
    requires started { Started (lent_survey rows.now pos.now osp.now) plan.now state.old opened }
    requires asks { Asks bytes.now rows.now pos.now osp.now plan.now quantum × (length output.old ≡ output_room plan.now) }
    ensures { record { answer = result; held = buffers state.new output.new kept.new }
        ≡ result_at (rounds Merged (lent_survey rows.now pos.now osp.now) plan.now quantum most_turns
        (first_position opened (buffers state.old output.old kept.old))) }
{
    let mut saved = opened;
    let mut used: usize = 0;
    for made in 0..MOST_TURNS {
        let went = print_step(
            rt, bytes, rows, pos, osp, plan, state, saved, quantum, output, kept, used, lists, made,
        );
        match went {
            Went::On { saved: left, words } => {
                saved = left;
                used = words;
            }
            Went::Over(words) => return Played::Finished(words),
            Went::Stopped(x) => return Played::Stopped(x),
        }
    }
    Played::Unfinished { saved, words: used }
}

// Runs an opened query with the printer's buffers: an output of exactly `OUTPUT_RECORDS` rows or records, and a kept list.
pub fn run(
    rt: &(impl Print + Eprint),
    bytes: &[u8],
    rows: &[u32],
    pos: &[u32],
    osp: &[u32],
    plan: &[u32],
    quantum: u32,
    state: &mut [u32; STATE_WORDS],
    opened: usize,
)
    requires started { Started (lent_survey rows.now pos.now osp.now) plan.now state.old opened }
    requires asks { Asks bytes.now rows.now pos.now osp.now plan.now quantum }
{
    let lists = lists_of(plan);
    let room = OUTPUT_RECORDS * lists.width;
    let mut output = [0u32; 1024];
    let mut kept = [0u32; 8192];
    let played = go_on(
        rt,
        bytes,
        rows,
        pos,
        osp,
        plan,
        quantum,
        state,
        opened,
        &mut output[..room],
        &mut kept,
        lists,
    );
    print_played(rt, bytes, &kept, played, lists);
}
