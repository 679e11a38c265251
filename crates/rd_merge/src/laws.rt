//! The law of what goes.
ghost use Rattle.rd_merge.specs.Internal.Telling.{GoneTold};

/// Where what stays is told by a test, the entries that go are those of `gone_keys`.
pub fn gone_told()
    ensures { GoneTold }
{}
