//! The boxes of a tree that are touched.
ghost use Rattle.std.specs.Prelude.{◌≡◌};
ghost use Rattle.rd_tree.specs.Document as document;

use crate::going::Touches;
use rd_keys::{BoxKey, KeyRange};
use rd_tree::Tree;
use std::sync::ledger::Ledger;

impl<B: Ledger> Touches for Tree<B> {
    ghost is_touched = { λ t k. document.is_touched k t.boxes };

    fn touches(&self, key: BoxKey) -> bool {
        self.touched(key)
    }

    fn none_touched(&self, keys: KeyRange) -> bool {
        self.none_touched(keys)
    }
}
