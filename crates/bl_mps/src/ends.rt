//! The ends of each column.
ghost use Rattle.std.specs.Prelude.{◌≡◌, map, length, IfOk, replicate, None, Some, List, [], ◌∷◌};
ghost use Rattle.std.specs.Prelude.{◌++◌, pos};
ghost use Rattle.bl_cards.specs.Said.{Card};
ghost use Rattle.bl_mps.specs.Meaning.{acted, ends_set, ends_or, unset, binary, lowered, raised};
ghost use Rattle.bl_mps.specs.Meaning.{as_whole, set_ends};
ghost use Rattle.bl_cards.specs.Views.{card_of};

use bl_cards::{Act, BoundCard, Names};
use std::alloc::{AllocError, Global};

/// The ends of a column, as far as its cards have set them.
#[derive(Clone, Copy, Debug, PartialEq, Eq)]
pub struct Ends {
    pub low: Option<i64>,
    pub high: Option<i64>,
    /// A card gave or took the low end: an upper bound that is negative then leaves it.
    pub low_is_said: bool,
    /// A card says that the column takes whole numbers.
    pub is_whole: bool,
}

/// The ends that the cards of each column set, None where a column has none.
pub fn column_ends(
    alloc: Global,
    names: &Names<'_>,
    cards: &[BoundCard<'_>],
) -> Result<Vec<Option<Ends>>, AllocError>
    ensures { IfOk result (λ ends. ends.items ≡ map (ends_set (map card_of cards.now)) names.now) }
{
    let mut ends = no_ends(alloc, names.len())?;
    for card in cards {
        put_card(&mut ends, names, card);
    }
    Ok(ends)
}

/// As many columns without a card.
fn no_ends(alloc: Global, count: usize) -> Result<Vec<Option<Ends>>, AllocError>
    ensures { IfOk result (λ ends. ends.items ≡ replicate count None) }
{
    let mut ends = Vec::new(alloc);
    for _ in 0..count {
        ends.push(None)?;
    }
    Ok(ends)
}

/// Sets the end that a card is for.
fn put_card(ends: &mut Vec<Option<Ends>>, names: &Names<'_>, card: &BoundCard<'_>)
    ensures { (cards : List Card) → ends.old.items ≡ map (ends_set cards) names.now
        → ends.new.items ≡ map (ends_set (cards ++ card_of card.now ∷ [])) names.now }
{
    let Some(place) = names.find(card.column) else {
        return;
    };
    if place < ends.len() {
        ends[place] = Some(with_card(ends[place], card));
    }
}

/// The ends behind an upper bound. A negative one takes a low end away that no card has given.
fn lowered(now: Ends, number: i64) -> Ends
    ensures { result ≡ lowered now number }
{
    let low = if number < 0 && !now.low_is_said {
        None
    } else {
        now.low
    };
    Ends {
        low,
        high: Some(number),
        low_is_said: now.low_is_said,
        is_whole: now.is_whole,
    }
}

fn raised(now: Ends, number: i64) -> Ends
    ensures { result ≡ raised now number }
{
    Ends {
        low: Some(number),
        high: now.high,
        low_is_said: true,
        is_whole: now.is_whole,
    }
}

fn as_whole(now: Ends) -> Ends
    ensures { result ≡ as_whole now }
{
    Ends {
        low: now.low,
        high: now.high,
        low_is_said: now.low_is_said,
        is_whole: true,
    }
}

/// The ends behind a card of this kind.
fn set_ends(act: Act, now: Ends, number: i64) -> Ends
    ensures { result ≡ set_ends act now number }
{
    match act {
        Act::High => lowered(now, number),
        Act::WholeHigh => as_whole(lowered(now, number)),
        Act::Low => raised(now, number),
        Act::WholeLow => as_whole(raised(now, number)),
        Act::Both => Ends {
            low: Some(number),
            high: Some(number),
            low_is_said: true,
            is_whole: now.is_whole,
        },
        Act::Free => Ends {
            low: None,
            high: None,
            low_is_said: true,
            is_whole: now.is_whole,
        },
        Act::NoLow => Ends {
            low: None,
            high: now.high,
            low_is_said: true,
            is_whole: now.is_whole,
        },
        Act::NoHigh => Ends {
            low: now.low,
            high: None,
            low_is_said: now.low_is_said,
            is_whole: now.is_whole,
        },
        Act::Binary => Ends {
            low: Some(0),
            high: Some(1),
            low_is_said: true,
            is_whole: true,
        },
    }
}

/// The ends behind a card.
fn with_card(ends: Option<Ends>, card: &BoundCard<'_>) -> Ends
    ensures { result ≡ acted (ends_or unset ends) (card_of card.now) }
{
    let now = ends.unwrap_or(Ends {
        low: Some(0),
        high: None,
        low_is_said: false,
        is_whole: false,
    });
    set_ends(card.act, now, card.number)
}

/// A whole column without a card is 0 or 1.
pub fn or_binary(ends: Option<Ends>) -> Ends
    ensures { result ≡ ends_or binary ends }
{
    ends.unwrap_or(Ends {
        low: Some(0),
        high: Some(1),
        low_is_said: false,
        is_whole: false,
    })
}
