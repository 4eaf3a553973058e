// Numbers that words of a run sheet write.
ghost use Rattle.std.specs.Prelude.{◌≡◌, ◌≤◌, [], ◌∷◌, Some, IfOk, IfErr};
ghost use Rattle.settle.specs.declared.sheet.NoStep.TheVariants.{Unknown};
ghost use Rattle.settle.specs.Sheet.{texts, Parsed, ParsedAs};
ghost use Rattle.settle.specs.Numbers.{Reads, Numbers, Exactly, Within, FiveTotals, PartyWeights};

use crate::sheet::NoStep;
use std::alloc::Global;

pub(crate) const PARTIES: usize = energy::source::PARTIES as usize;

pub(crate) const REGIONS: usize = energy::source::REGIONS as usize;

// A number of at most `most` in digits alone: `parse` would take a sign.
pub(crate) fn number(word: &str, most: u64) -> Result<u64, NoStep>
    ensures answer { Parsed (λ n. Reads most word.now (Some n)) result }
    ensures why { IfErr result (λ why. why ≡ Unknown) }
    ensures small { IfOk result (λ n. n ≤ most) }
{
    if word.starts_with('+') {
        return Err(NoStep::Unknown);
    }
    match word.parse::<u64>() {
        Ok(number) if number <= most => Ok(number),
        _ => Err(NoStep::Unknown),
    }
}

// The numbers of exactly `N` words.
pub(crate) fn exactly<const N: usize>(words: &[&str], most: u64) -> Result<[u64; N], NoStep>
    ensures answer { Parsed (λ ns. Exactly N most (texts words.now) ns) result }
    ensures small { IfOk result (λ ns. Within most ns) }
{
    if words.len() != N {
        return Err(NoStep::Unknown);
    }
    // By place, as a word that writes no number ends it.
    let mut numbers = [0; N];
    for (k, word) in words.iter().enumerate() {
        numbers[k] = number(*word, most)?;
    }
    Ok(numbers)
}

// One byte: the number of a declaration, or a set of regions.
pub(crate) fn byte(words: &[&str]) -> Result<u8, NoStep>
    ensures { Parsed (λ n. Numbers 255 (texts words.now) (n ∷ [])) result }
{
    let [byte] = exactly::<1>(words, 255)?;
    Ok(byte as u8)
}

pub(crate) fn owners(heap: Global, words: &[&str]) -> Result<Vec<u8>, NoStep>
    ensures { ParsedAs (λ v. v.items) (λ ns. Numbers 255 (texts words.now) ns) result }
{
    let mut owners = Vec::new(heap);
    for word in words {
        owners.push(number(*word, 255)? as u8)?;
    }
    Ok(owners)
}

pub(crate) fn totals(words: &[&str]) -> Result<[u32; REGIONS], NoStep>
    ensures { Parsed (λ ns. FiveTotals (texts words.now) ns) result }
{
    let [a, b, c, d, e] = exactly::<REGIONS>(words, 4_294_967_295)?;
    Ok([a as u32, b as u32, c as u32, d as u32, e as u32])
}

// The weights of all parties: 0 for those that have none listed.
pub(crate) fn weights(words: &[&str]) -> Result<[u16; PARTIES], NoStep>
    ensures { Parsed (λ ns. PartyWeights (texts words.now) ns) result }
{
    if words.len() > PARTIES {
        return Err(NoStep::Unknown);
    }
    // By place, for the same reason; the others stay 0.
    let mut weights = [0; PARTIES];
    for (party, word) in words.iter().enumerate() {
        weights[party] = number(*word, 65_535)? as u16;
    }
    Ok(weights)
}
