// What the words after a keyword ask for.
ghost use Rattle.std.specs.Prelude.{◌≡◌, [], ◌∷◌, if◌then◌else◌, string_bytes, codes};
ghost use Rattle.settle.specs.Sheet.{Parsed, texts, Asks};

use crate::numbers::{REGIONS, byte, exactly, number, owners, totals, weights};
use crate::sheet::{NoStep, Step};
use crate::terms::{heading, terms};
use session::call::Call;
use std::alloc::Global;

// The words of a claim before its terms.
const HEADING: usize = 4;

// The one word that follows a keyword.
fn name(heap: Global, words: &[&str]) -> Result<String, NoStep>
    ensures { Parsed (λ name. texts words.now ≡ string_bytes name ∷ []) result }
{
    match words {
        [name] => Ok(String::from_str(heap, *name)?),
        _ => Err(NoStep::Unknown),
    }
}

// A keyword that nothing follows.
fn nothing(words: &[&str]) -> Result<(), NoStep>
    ensures { Parsed (λ _. texts words.now ≡ []) result }
{
    if words.is_empty() {
        Ok(())
    } else {
        Err(NoStep::Unknown)
    }
}

fn anyway(words: &[&str]) -> Result<bool, NoStep>
    ensures { Parsed (λ b. texts words.now ≡ (if b then codes "anyway" ∷ [] else [])) result }
{
    match words {
        [] => Ok(false),
        ["anyway"] => Ok(true),
        _ => Err(NoStep::Unknown),
    }
}

fn profile(words: &[&str]) -> Result<Step, NoStep>
    ensures { Parsed (λ step. Asks (codes "profile") (texts words.now) step) result }
{
    let (first, rest) = words.split_at_checked(REGIONS).ok_or(NoStep::Unknown)?;
    Ok(Step::Profile {
        totals: totals(first)?,
        weights: weights(rest)?,
    })
}

fn handover(words: &[&str]) -> Result<Step, NoStep>
    ensures { Parsed (λ step. Asks (codes "handover") (texts words.now) step) result }
{
    let [leaver, successor] = exactly::<2>(words, 65_535)?;
    Ok(Step::Handover {
        leaver: leaver as u16,
        successor: successor as u16,
    })
}

fn journal(heap: Global, words: &[&str]) -> Result<Step, NoStep>
    ensures { Parsed (λ step. Asks (codes "journal") (texts words.now) step) result }
{
    let (first, rest) = words.split_first().ok_or(NoStep::Unknown)?;
    Ok(Step::Journal {
        records: number(*first, 65_535)? as u16,
        name: name(heap, rest)?,
    })
}

fn split(words: &[&str]) -> Result<Step, NoStep>
    ensures { Parsed (λ step. Asks (codes "split") (texts words.now) step) result }
{
    let (first, rest) = words.split_first().ok_or(NoStep::Unknown)?;
    Ok(Step::Split {
        part: number(*first, u64::MAX)?,
        set: byte(rest)?,
    })
}

fn declare(words: &[&str]) -> Result<Step, NoStep>
    ensures { Parsed (λ step. Asks (codes "declare") (texts words.now) step) result }
{
    let [number, kind, regions] = exactly::<3>(words, 255)?;
    Ok(Step::Call(Call::Declare {
        number: number as u8,
        kind: kind as u8,
        regions: regions as u8,
    }))
}

fn claim(heap: Global, words: &[&str]) -> Result<Step, NoStep>
    ensures { Parsed (λ step. Asks (codes "claim") (texts words.now) step) result }
{
    let (first, rest) = words.split_at_checked(HEADING).ok_or(NoStep::Unknown)?;
    let (number, interval, marginal_value, part) = heading(first)?;
    let terms = terms(heap, rest)?;
    Ok(Step::Call(Call::Claim {
        number,
        interval,
        marginal_value,
        part,
        terms,
    }))
}

// An arm for each keyword, as each step takes other words.
pub(crate) fn asked(heap: Global, keyword: &str, words: &[&str]) -> Result<Step, NoStep>
    ensures { Parsed (λ step. Asks keyword.now (texts words.now) step) result }
{
    match keyword {
        "units" => Ok(Step::Units(owners(heap, words)?)),
        "units-file" => Ok(Step::UnitsFile(name(heap, words)?)),
        "samples" => Ok(Step::Samples(name(heap, words)?)),
        "publish" => Ok(Step::Publish {
            anyway: anyway(words)?,
        }),
        "metered" => Ok(Step::Metered(name(heap, words)?)),
        "profile" => profile(words),
        "island" => Ok(Step::Island(byte(words)?)),
        "handover" => handover(words),
        "totals" => {
            nothing(words)?;
            Ok(Step::Totals)
        }
        "dispatch" => Ok(Step::Dispatch(byte(words)?)),
        "table" => {
            nothing(words)?;
            Ok(Step::Table)
        }
        "journal" => journal(heap, words),
        "amounts" => {
            nothing(words)?;
            Ok(Step::Amounts)
        }
        "records" => Ok(Step::Records(name(heap, words)?)),
        "split" => split(words),
        "declare" => declare(words),
        "withdraw" => Ok(Step::Call(Call::Withdraw {
            number: byte(words)?,
        })),
        "claim" => claim(heap, words),
        "recover" => Ok(Step::Call(Call::Recover {
            number: byte(words)?,
        })),
        "return" => Ok(Step::Call(Call::HandBack {
            number: byte(words)?,
        })),
        _ => Err(NoStep::Unknown),
    }
}
