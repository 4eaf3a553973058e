// The terms of a claim, as words of a run sheet write them.
ghost use Rattle.std.specs.Prelude.{[], ◌∷◌};
ghost use Rattle.settle.specs.Sheet.{texts, Parsed, ParsedAs};
ghost use Rattle.settle.specs.Terms.{Heading, Termed, ClaimTerms};

use crate::numbers::number;
use crate::sheet::NoStep;
use book::term::Term;
use session::call::Terms;
use std::alloc::Global;

// The words that write a term.
const WORDS: usize = 3;

// What a claim says before its terms: number, week interval, marginal value and part.
pub(crate) fn heading(words: &[&str]) -> Result<(u8, u16, u32, u64), NoStep>
    ensures { Parsed (λ h. Heading (texts words.now) h.0 h.1 h.2 h.3) result }
{
    let [first, second, third, fourth] = words else {
        return Err(NoStep::Unknown);
    };
    let number_of = number(*first, 255)?;
    let interval = number(*second, 65_535)?;
    let value = number(*third, 4_294_967_295)?;
    let part = number(*fourth, u64::MAX)?;
    Ok((number_of as u8, interval as u16, value as u32, part))
}

fn term(words: &[&str; WORDS]) -> Result<Term, NoStep>
    ensures { Parsed (λ t. Termed (texts words.now) (t ∷ [])) result }
{
    let [first, second, third] = *words;
    let region = number(first, 255)?;
    let service = number(second, 255)?;
    let amount = number(third, 65_535)?;
    Ok(Term {
        region: region as u8,
        service: service as u8,
        amount: amount as u16,
    })
}

fn all(heap: Global, words: &[&str]) -> Result<Vec<Term>, NoStep>
    ensures { ParsedAs (λ v. v.items) (λ ts. Termed (texts words.now) ts) result }
{
    let (terms_in, rest) = words.as_chunks::<WORDS>();
    if !rest.is_empty() {
        return Err(NoStep::Unknown);
    }
    let mut terms = Vec::new(heap);
    for words in terms_in {
        terms.push(term(words)?)?;
    }
    Ok(terms)
}

// The first of the terms, as many as a call holds.
pub(crate) fn terms(heap: Global, words: &[&str]) -> Result<Terms, NoStep>
    ensures { Parsed (λ terms. ClaimTerms (texts words.now) terms) result }
{
    let terms = all(heap, words)?;
    Ok(Terms::first_of(terms.as_slice()))
}
