//! The exchange until no item is low.
ghost use Rattle.std.specs.Prelude.{◌≡◌, ◌≤ℤ◌, pos};
ghost use Rattle.bounds_model.specs.Slacks.{mass, IsLow};
ghost use Rattle.kernel_laws.specs.Solutions.{weight_limit};
ghost use Rattle.corral.specs.Items.{IsItem, item, square_of};
ghost use Rattle.corral.specs.WeightedItems.{AreSupportItems, weighted_items};
ghost use Rattle.corral.specs.Supports.{AreSupports};
ghost use Rattle.corral.specs.Supported.{items_of, supports_of};

use crate::items::{Id, Items};
use crate::support::Support;
use crate::unsettled::Corral;
use kernel_laws::{Kernel, Potential};

/// Supports under which no item is low. It begins with an item of least slack under the first one, so that the first exchange
/// finds two items that lie far apart.
pub fn settle<'a, K: Kernel, T: Potential>(kernel: K, items: Items<'a, K>) -> Support<'a, K>
    requires { T.SQUARE ≡ square_of items }
    ensures items { items_of result ≡ items.entry }
    ensures members { AreSupportItems K.DIM items.entry (supports_of result) }
    ensures supports { AreSupports T.SQUARE (weighted_items K.place items.entry (supports_of result)) }
    ensures limit { mass (weighted_items K.place items.entry (supports_of result)) ≤ℤ pos (weight_limit T.SQUARE K.DIM) }
    ensures none_low { (id : _) → IsItem items.entry id
        → ¬ IsLow T.SQUARE (weighted_items K.place items.entry (supports_of result)) (item K.place items.entry id) }
{
    let origin = Corral::<K, T>::start(kernel, items, Id::default());
    let mut corral = Corral::<K, T>::start(kernel, items, origin.lowest());
    'exchange: loop {
        let id = corral.lowest();
        if !corral.is_low(id) {
            return corral.into_support();
        }
        // Each exchange raises the value of the supports, and there are finitely many supports: so the loop ends.
        corral.exchange(id);
    }
}
