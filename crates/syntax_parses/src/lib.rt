// The machine that reads tokens by the grammar, in code: words in postfix out, or a fault and its token. Buffers and table are lent.
#![tactic(auto)]

ghost use Rattle.std.specs.Prelude.{◌≡◌, [], ◌∷◌, ◌++◌, ◌+◌, ◌*◌, ◌%◌, ◌≤◌, length, take, drop};
ghost use Rattle.syntax.specs.Kinds.{query_symbol};
ghost use Rattle.syntax.specs.Machine.{fed_to, parsed};
ghost use Rattle.syntax_cells.specs.TableWords.{grammar_words};
ghost use Rattle.syntax_parses.specs.Answers.{after_by, FedWithin, parsed_by};

use syntax_cells::{CellAction, GRAMMAR, Placing, cell};

// After a token: from which place on symbols wait, and how many words are written.
#[derive(Clone, Copy)]
pub struct Fed {
    pub top: usize,
    pub wrote: usize,
}

// A fault, and the token where it is seen.
#[derive(Clone, Copy)]
pub struct SyntaxFault {
    pub fault: u32,
    pub token: u32,
}

// Some symbols of the table, put before those that wait from `top` on.
fn push(stack: &mut [u32], top: usize, placing: Placing, table: &[u32]) -> usize
    requires { (placing.size ≤ top) × (top ≤ length stack.old) × (placing.start + placing.size ≤ length table.now) }
    ensures { (result + placing.size ≡ top) × (length stack.new ≡ length stack.old)
        × (drop result stack.new ≡ take placing.size (drop placing.start table.now) ++ drop top stack.old) }
{
    let low = top - placing.size;
    stack[low..top].copy_from_slice(&table[placing.start..placing.start + placing.size]);
    low
}

// A token goes to the symbols that wait for it.
fn feed(
    token: u32,
    stack: &mut [u32],
    top: usize,
    out: &mut [u32],
    wrote: usize,
    table: &[u32],
) -> Result<Fed, u32>
    requires { (8 ≤ top) × (top ≤ length stack.old) × (wrote + length stack.old + 8 ≤ length out.old + top)
        × (table.now ≡ grammar_words) }
    ensures { (length stack.new ≡ length stack.old) × (length out.new ≡ length out.old)
        × FedWithin result top wrote (length stack.old)
        × (after_by result stack.new out.new
        ≡ fed_to (token % 128) token (drop top stack.old) (take wrote out.old)) }
{
    let mut m = wrote;
    for at in top..stack.len() {
        let s = stack[at];
        if s >= 64 {
            out[m] = s;
            m += 1;
            continue;
        }
        match cell(s, token % 128, table) {
            CellAction::Refuse(fault) => return Err(fault),
            CellAction::Pass => {}
            CellAction::Shift(placing) => {
                let low = push(stack, at + 1, placing, table);
                if !placing.writes {
                    return Ok(Fed { top: low, wrote: m });
                }
                out[m] = token;
                return Ok(Fed {
                    top: low,
                    wrote: m + 1,
                });
            }
        }
    }
    Err(3)
}

// Tokens are read from the left, from the symbol of a query on: how many words were written, or a fault.
pub fn parse(
    tokens: &[u32],
    stack: &mut [u32],
    out: &mut [u32],
    table: &[u32],
) -> Result<usize, SyntaxFault>
    requires { (8 * length tokens.now + 8 ≤ length stack.old) × (8 * length tokens.now + 8 ≤ length out.old)
        × (table.now ≡ grammar_words) }
    ensures { (length out.new ≡ length out.old)
        × (parsed_by result out.new ≡ parsed tokens.now (query_symbol ∷ []) []) }
{
    let mut fed = Fed {
        top: stack.len() - 1,
        wrote: 0,
    };
    stack[fed.top] = 0;
    for t in tokens {
        match feed(*t, stack, fed.top, out, fed.wrote, table) {
            Ok(next) => fed = next,
            Err(fault) => return Err(SyntaxFault { fault, token: *t }),
        }
    }
    if fed.top < stack.len() {
        return Err(SyntaxFault { fault: 3, token: 0 });
    }
    Ok(fed.wrote)
}

// The same, with the grammar's table made here, once.
pub fn parse_tokens(
    tokens: &[u32],
    stack: &mut [u32],
    out: &mut [u32],
) -> Result<usize, SyntaxFault>
    requires { (8 * length tokens.now + 8 ≤ length stack.old) × (8 * length tokens.now + 8 ≤ length out.old) }
    ensures { (length out.new ≡ length out.old)
        × (parsed_by result out.new ≡ parsed tokens.now (query_symbol ∷ []) []) }
{
    parse(tokens, stack, out, &GRAMMAR)
}
