// What storage keeps of a side's amount, and what its relief releases.
ghost use Rattle.std.specs.Prelude.{◌≡◌, ◌+◌, ◌-◌, ◌*◌, ◌/◌, ◌<◌, ◌≤◌};
ghost use Rattle.pricing.specs.Limits.{most_amount};
ghost use Rattle.pricing.specs.Shares.{first_storage, released, storage_share, main_part};
ghost use Rattle.pricing.specs.Sides.{base_of};

use crate::relief::WHOLE_RELIEF;
use crate::sharing::Sharing;
use terms::measures::Dinars;

// What the relief took off a storage share. It is owed to the other elements of that side until it is handed on: it cannot be
// copied, dropped or taken apart elsewhere, and it carries what its split needs, so that it cannot go to another side.
pub struct Release {
    before: u64,
    freed: u64,
    main: u64,
    other: u64,
    ghost bounded: { before + freed ≤ most_amount },
    ghost shared: { 0 < main + other },
}

// amount × weight / all, rounded down.
fn part(amount: u64, weight: u64, all: u128) -> u64
    requires some { 0 < all }
    requires within { weight ≤ all }
    ensures value { result ≡ amount * weight / all }
    ensures bound { result ≤ amount }
{
    (amount as u128 * weight as u128 / all) as u64
}

// What storage keeps, and the release that is owed to the others.
pub fn storage_share(side: Sharing) -> (Dinars<u64>, Release)
    ensures kept { result.0.0 ≡ storage_share (base_of side) }
    ensures before { result.1.before ≡ side.amount.dinars.0 - first_storage (base_of side) }
    ensures freed { result.1.freed ≡ released (base_of side) }
    ensures main { result.1.main ≡ side.weights.main }
    ensures other { result.1.other ≡ side.weights.other }
    ensures whole { result.0.0 + (result.1.before + result.1.freed) ≡ side.amount.dinars.0 }
{
    let amount = side.amount.get().0;
    let main = side.weights.main;
    let other = side.weights.other;
    let storage = side.weights.storage;
    let first = part(
        amount,
        storage,
        main as u128 + other as u128 + storage as u128,
    );
    let freed = part(first, side.relief.get() as u64, WHOLE_RELIEF as u128);
    (
        Dinars(first - freed),
        Release {
            before: amount - first,
            freed,
            main,
            other,
        },
    )
}

// Hands the release on: with what was never storage's it is split between the main element and the other one, by their weights.
pub fn hand_on(release: Release) -> (Dinars<u64>, Dinars<u64>)
    ensures main { result.0.0 ≡ main_part (release.before + release.freed) release.main release.other }
    ensures other { result.1.0 ≡ release.before + release.freed - main_part (release.before + release.freed) release.main release.other }
    ensures whole { result.0.0 + result.1.0 ≡ release.before + release.freed }
{
    let Release {
        before,
        freed,
        main,
        other,
    } = release;
    let left = before + freed;
    let first = part(left, main, main as u128 + other as u128);
    (Dinars(first), Dinars(left - first))
}
