// The text of a chain, its E and S lines, into a prepared chain. It has any length. The lot is a module below this one, so that what these functions ask of
// their caller stays theirs. What is read is the profile of the chain so far, whose steps stand prepared in the numbers; or the first line's refusal.
ghost use Rattle.std.specs.Prelude.{◌≡◌, true, List, [], ◌<◌, ℤ, length};
ghost use Rattle.refusal.specs.Refusals.{number, told};
ghost use Rattle.chain.specs.declared.Step.{Step};
ghost use Rattle.chain.specs.Faults.{latest};
ghost use Rattle.chain.specs.Prepared.{Holds};
ghost use Rattle.line.specs.Readers.{read_step, read_edition};
ghost use Rattle.lot_plan.specs.LotPlan.{with_step, with_edition, with_line, chain_text};
ghost use Rattle.lot_plan.specs.Reading.{Took, unread_number, edition_read};

use chain::Prepared;
use line::Unread;
use refusal::Refusal;

pub mod lot;

// Why a line is not read, with no place in it.
fn refusal_of(unread: Unread) -> Refusal
    ensures { number result ≡ unread_number unread }
{
    match unread {
        Unread::Malformed(fault) => fault.refusal,
        Unread::Refused(refusal) => refusal,
    }
}

// A line that begins with S.
fn take_step(profile: i64, numbers: &mut Prepared, text: &[u8]) -> Result<i64, Refusal>
    ensures { (ss : List Step) → Holds profile numbers.old ss
        → Took (with_step profile ss (read_step profile text.now)) numbers.new (told result) }
{
    let step = line::read_step(profile, text).map_err(refusal_of)?;
    chain::extend(profile, step, numbers)?;
    Ok(profile)
}

// An edition's year, by where its line stands.
fn judge_edition(first: bool, year: i64) -> Result<i64, Refusal>
    ensures { told result ≡ edition_read first year }
{
    if !first {
        return Err(Refusal::Misplaced);
    }
    chain::profile_fault(year)?;
    Ok(year)
}

// A line that begins with E.
fn take_edition(first: bool, text: &[u8]) -> Result<i64, Refusal>
    ensures { (y : ℤ) (ss : List Step) (l : List ℤ) → (first ≡ true → ss ≡ []) → Holds y l ss
        → Took (with_edition first (read_edition text.now)) l (told result) }
{
    match line::read_edition(text) {
        Err(fault) => Err(fault.refusal),
        Ok(year) => judge_edition(first, year),
    }
}

// Any line but the empty piece, by its first byte.
// stays a row of ifs: each letter is handed what it needs, and no other; a table of closures would hide that
fn take_line(first: bool, profile: i64, numbers: &mut Prepared, text: &[u8]) -> Result<i64, Refusal>
    requires { 0 < length text.now }
    ensures { (ss : List Step) → (first ≡ true → ss ≡ []) → Holds profile numbers.old ss
        → Took (with_line first profile ss text.now) numbers.new (told result) }
{
    let letter = text[0];
    if letter == b'S' {
        return take_step(profile, numbers, text);
    }
    if letter == b'E' {
        return take_edition(first, text);
    }
    Err(line::strange(text).refusal)
}

// The whole text, from numbers that hold no step.
fn read_chain(text: &[u8], numbers: &mut Prepared) -> Result<i64, Refusal>
    requires { Holds latest numbers.old [] }
    ensures { Took (chain_text text.now) numbers.new (told result) }
{
    let mut profile = chain::LATEST;
    let mut from = 0;
    // stays a while: a turn goes on by a whole line
    while from < text.len() {
        let end = line::line_end(text, from);
        profile = take_line(from == 0, profile, numbers, &text[from..end])?;
        from = end;
    }
    Ok(profile)
}
