//! The heaviest subset of some items that fits a limit, among as many as are looked at: an extract, from the widths and
//! the weights of the items. Subsets are numbered in binary, the first item being the lowest bit; width and weight are
//! kept from one to the next.

ghost use Rattle.std.specs.List.{list_any};
ghost use Rattle.std.specs.Prelude.{◌≡◌, suc, ◌^◌, ◌<◌, ◌≤◌, length};
ghost use Rattle.definition.specs.Calls.{extract_of};
ghost use Rattle.definition.specs.Extract.{items, weight_of, alone, extract};
ghost use Rattle.extract.specs.Sums.{listed, outside, SumsAre, Weighable, HasNext, HasSubsets, Narrow, Paired, FoundIs};

use definition::{Extract, LEAST_WEIGHT, MOST_ITEMS, MOST_WEIGHT, Refusal};

/// What is asked of some items.
#[derive(Clone, Copy)]
pub struct Terms<'a> {
    /// What each item weighs.
    pub weights: &'a [u32],
    /// How many bytes a choice may take.
    pub limit: usize,
    /// How many subsets may be looked at.
    pub budget: usize,
}

/// What the items of a subset come to.
#[derive(Clone, Copy)]
pub struct Sums {
    /// Their bytes.
    pub width: usize,
    /// Their weight.
    pub weight: usize,
}

/// The heaviest of the subsets looked at.
#[derive(Clone, Copy)]
pub struct Found {
    /// Its number.
    pub subset: usize,
    /// Its weight.
    pub weight: usize,
}

/// An item that may be chosen.
#[derive(Clone, Copy)]
struct WeightedItem {
    /// Its reserved width.
    width: u32,
    /// Its weight.
    weight: u32,
}

/// What stands in a place that no item has.
const NO_ITEM: WeightedItem = WeightedItem {
    width: 0,
    weight: 0,
};

/// Up to 16 items, none too wide or too heavy.
#[derive(Clone, Copy)]
struct Items<'a> {
    items: &'a [WeightedItem],
    ghost weighable: { Weighable items.now },
}

impl<'a> Items<'a> {
    /// The sums of the subset after the one of that number: its first items leave, up to the first that it has not,
    /// which joins.
    fn next_sums(self, number: usize, sums: Sums) -> Sums
        requires { HasNext self.items.now number sums }
        ensures { SumsAre self.entry.items.now (suc number) result }
    {
        let mut sums = sums;
        let mut rest = number;
        for item in self.items {
            if rest % 2 == 0 {
                return Sums {
                    width: sums.width + item.width as usize,
                    weight: sums.weight + item.weight as usize,
                };
            }
            sums = Sums {
                width: sums.width - item.width as usize,
                weight: sums.weight - item.weight as usize,
            };
            rest /= 2;
        }
        sums
    }

    /// The heaviest of the first `count` subsets that fits the limit, the earliest if equal. The empty one, number 0,
    /// always fits.
    fn best_of(self, limit: usize, count: usize) -> Found
        requires { HasSubsets self.items.now count }
        ensures { FoundIs limit count self.entry.items.now result }
    {
        let mut best = Found {
            subset: 0,
            weight: 0,
        };
        let mut sums = Sums {
            width: 0,
            weight: 0,
        };
        for number in 1..count {
            sums = self.next_sums(number - 1, sums);
            if sums.width <= limit && best.weight < sums.weight {
                best = Found {
                    subset: number,
                    weight: sums.weight,
                };
            }
        }
        best
    }

    /// The weight of all items that fit alone.
    fn alone_weight(self, limit: usize) -> usize
        ensures { result ≡ weight_of (alone limit (listed self.entry.items.now)) }
    {
        let mut sum = 0;
        for item in self.items {
            if item.width as usize <= limit {
                sum += item.weight as usize;
            }
        }
        sum
    }

    /// The extract, by a budget that lets a subset be looked at.
    #[tactic(auto, using(crate::proofs::AnswerLaws::extract_steps))]
    fn extract(self, limit: usize, budget: usize) -> Extract
        requires { 0 < budget }
        ensures { result ≡ extract limit budget (listed self.entry.items.now) }
    {
        let all = subset_count(self.items.len());
        let examined = budget.min(all);
        let found = self.best_of(limit, examined);
        let off = if examined < all {
            self.alone_weight(limit) - found.weight
        } else {
            0
        };
        Extract {
            subset: found.subset,
            weight: found.weight,
            examined,
            off,
        }
    }
}

/// Puts together the items of these widths and weights.
#[tactic(auto, using(crate::proofs::ItemLaws::put_steps))]
fn put_items(room: &mut [WeightedItem], widths: &[u32], weights: &[u32])
    requires { Paired (length room.old) widths.now weights.now }
    ensures { listed room.new ≡ items widths.now weights.now }
{
    // By place: of a `zip` with the widths and the weights the loop's end would not say what became of the room.
    for (k, item) in room.iter_mut().enumerate() {
        *item = WeightedItem {
            width: widths[k],
            weight: weights[k],
        };
    }
}

/// How many subsets n items have.
fn subset_count(n: usize) -> usize
    requires { n ≤ MOST_ITEMS }
    ensures { result ≡ 2 ^ n }
{
    1 << n
}

/// Whether some weight is outside its range.
fn is_misweighed(weights: &[u32]) -> bool
    ensures { result ≡ list_any outside weights.now }
{
    weights
        .iter()
        .any(|w| *w < LEAST_WEIGHT || MOST_WEIGHT < *w)
}

/// The extract of up to 16 items of these widths, by these terms: 58 for another number of weights than of items, 59
/// for a weight outside its range, 60 for a budget of 0.
#[tactic(auto, using(crate::proofs::AnswerLaws::choose_steps), unfolding(definition::specs::Calls::extract_of, definition::specs::Basic::and_then))]
pub fn choose(widths: &[u32], terms: Terms) -> Result<Extract, Refusal>
    requires { Narrow widths.now }
    ensures { result ≡ extract_of widths.now terms.entry.weights.now terms.entry.limit terms.entry.budget }
{
    let Terms {
        weights,
        limit,
        budget,
    } = terms;
    if weights.len() != widths.len() {
        return Err(Refusal::WrongItems);
    }
    if is_misweighed(weights) {
        return Err(Refusal::BadWeight);
    }
    if budget == 0 {
        return Err(Refusal::NoBudget);
    }
    let mut room = [NO_ITEM; MOST_ITEMS];
    let room = &mut room[..widths.len()];
    put_items(room, widths, weights);
    Ok(Items { items: room }.extract(limit, budget))
}
