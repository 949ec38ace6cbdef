// One line of a sheet, for a caller that keeps where the sheet stands by value.
ghost use Rattle.std.specs.Prelude.{◌≡◌, true, [], ◌∷◌, ◌++◌, ◌<◌, ◌≤◌, eqb, pos, length, get_or, replicate, is_ok};
ghost use Rattle.chain.specs.Faults.{steps_of};
ghost use Rattle.chain.specs.Prepared as prepared;
ghost use Rattle.chain.specs.declared.Step.{Step};
ghost use Rattle.line.specs.Bytes.{letter_s};
ghost use Rattle.line.specs.Readers.{read_step};
ghost use Rattle.line.specs.Answers.{Good};
ghost use Rattle.sheet_rules.specs.declared.Reply.TheVariants as replies;
ghost use Rattle.sheet_rules.specs.OneLine.{sheet_at, counted, chain_with, sound_standing, steps_after, PreparesChain, answered_to, line_answered};

use crate::decide::{begins_with, decide};
use crate::{Answered, Reply, Standing, State};
use chain::{Chain, Prepared, Step};
use refusal::Refusal;

// At most so many lines of a sheet are answered.
const MOST_LINES: u64 = 1000000;

// Prepares a chain from no numbers, step by step, or says why it is bad.
fn prepare(chain: Chain, numbers: &mut Prepared) -> Result<(), Refusal>
    requires { numbers.old ≡ replicate 72 (pos 0) }
    ensures { PreparesChain chain numbers.new (is_ok result) }
{
    chain::profile_fault(chain.profile)?;
    if 8 < chain.length {
        return Err(Refusal::Ninth);
    }
    for step in &chain.steps[..chain.length] {
        chain::extend(chain.profile, *step, numbers)?;
    }
    Ok(())
}

// Whether a line to come can have this number, with so many steps before it.
pub(crate) fn is_counted(line: u64, steps: usize) -> bool
    ensures { result ≡ counted line steps }
{
    let before = steps as u64;
    (before < line) & (line <= MOST_LINES + 1)
}

// Whether a sheet can stand here: the line's number is 1 to 1,000,001, there were no more steps than lines before it, and the chain is good.
pub fn is_sound(standing: Standing) -> bool
    ensures { result ≡ sound_standing standing }
{
    let chain = standing.chain;
    is_counted(standing.line, chain.length) & chain::chain_fault(chain).is_ok()
}

// A chain with one step more.
fn with_step(chain: Chain, step: Step) -> Chain
    requires { (chain.length ≤ 8) × (length (steps_of chain) < 8) }
    ensures { result ≡ chain_with chain chain.profile (steps_of chain ++ (step ∷ [])) }
{
    let mut steps = chain.steps;
    steps[chain.length] = step;
    Chain {
        steps,
        length: chain.length + 1,
        ..chain
    }
}

// The chain after a line with this reply. Of the lines that begin with S only an accepted step prints nothing.
fn chain_after(chain: Chain, reply: Reply, text: &[u8]) -> Chain
    requires { (chain.length ≤ 8) × ((t : Step) → eqb (get_or text.now 0 0) letter_s ≡ true → reply ≡ replies.Nothing → read_step chain.profile text.now ≡ Good t → length (steps_of chain) < 8) }
    ensures { result ≡ chain_with chain chain.profile (steps_after (steps_of chain) (eqb (get_or text.now 0 0) letter_s) reply (read_step chain.profile text.now)) }
{
    if !begins_with(text, b'S') {
        return chain;
    }
    let Reply::Nothing = reply else {
        return chain;
    };
    match line::read_step(chain.profile, text) {
        Ok(step) => with_step(chain, step),
        Err(_) => chain,
    }
}

// A line within the limit, where a sheet stands soundly, its chain prepared.
fn answer_within(standing: Standing, numbers: &mut Prepared, text: &[u8]) -> Answered
    requires { (standing.line ≤ 1000000) × (standing.chain.length ≤ 8) × (standing.chain.length < standing.line) × (prepared.Holds standing.chain.profile numbers.old (steps_of standing.chain)) }
    ensures { result ≡ line_answered standing text.now }
{
    let state = State {
        line: standing.line,
        profile: standing.chain.profile,
        refused: standing.refused,
        closed: standing.closed,
    };
    let decided = decide(state, numbers, text);
    let next = decided.state;
    let chain = chain_after(standing.chain, decided.reply, text);
    Answered {
        standing: Standing {
            line: next.line,
            chain: Chain {
                profile: next.profile,
                ..chain
            },
            refused: next.refused,
            closed: next.closed,
        },
        response: Some(decided.reply),
    }
}

// The line after those that led here, of any bytes: refusal LIMIT past the 1,000,000th, which is not read and moves nothing, else as the sheet's rules answer it.
pub fn answer_line(standing: Standing, text: &[u8]) -> Answered
    ensures { result ≡ answered_to standing text.now }
{
    if MOST_LINES < standing.line {
        let limit = Reply::Refused(MOST_LINES + 1, Refusal::Limit.number(), 0);
        return Answered {
            standing,
            response: is_sound(standing).then_some(limit),
        };
    }
    if !is_counted(standing.line, standing.chain.length) {
        return Answered {
            standing,
            response: None,
        };
    }
    let mut numbers = [0i64; 72];
    let good = prepare(standing.chain, &mut numbers).is_ok();
    if !good {
        return Answered {
            standing,
            response: None,
        };
    }
    answer_within(standing, &mut numbers, text)
}
