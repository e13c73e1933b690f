// What lists of triangles weigh, under any tariff and any kind of weight.
#![tactic(auto)]

ghost use Rattle.std.specs.Prelude.{◌≡◌, List, Some};
ghost use Rattle.std.specs.List.Sorted.{IsPermutation};
ghost use Rattle.terms.specs.declared.triangles.Triangle.{Triangle};
ghost use Rattle.pricing.specs.Prices.{Dearest, joined, larger};

use tariffs::Tariff;
use terms::Triangle;
use weights::Weight;

// The weight of a list of triangles: their prices joined, if all have one.
pub fn weight_of<W: Weight, T: Tariff>(tariff: &T, triangles: &[Triangle]) -> Option<W>
    ensures value { result ≡ joined W.kind (T.view tariff.now) triangles.now }
    ensures any_order { (others : List Triangle) → IsPermutation triangles.now others → result ≡ joined W.kind (T.view tariff.now) others }
{
    let mut weight = W::nothing();
    for triangle in triangles {
        let price = tariff.price(*triangle)?;
        weight = weight.join(W::priced(price));
    }
    Some(weight)
}

// The dearer of two triangles with their weights: the second, where it is above the first. `max_by_key` would take the second
// too where neither is dearer, and ask for `Ord` of the weight.
fn dearer<W: Weight>(most: (Triangle, W), dear: (Triangle, W)) -> (Triangle, W)
    ensures { result ≡ larger W.kind (Some most) dear }
{
    if dear.1.not_above(most.1) { most } else { dear }
}

// A triangle of the list that no other outweighs, with its weight, if any of them has a price.
pub fn dearest<W: Weight, T: Tariff>(tariff: &T, triangles: &[Triangle]) -> Option<(Triangle, W)>
    ensures { Dearest W.kind (T.view tariff.now) triangles.now result }
{
    triangles
        .iter()
        .filter_map(|triangle| Some((*triangle, W::priced(tariff.price(*triangle)?))))
        .reduce(dearer)
}
