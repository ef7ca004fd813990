//! When statements may take the place of other ones.
ghost use Rattle.nest_steps.specs.Keeping.{OneAfterAnother, WhatStandsKeepsAgreement};
ghost use Rattle.tree.specs.declared.width.Width.{Width};

/// What may stand for what may stand for a block may stand for the block.
pub fn one_after_another()
    ensures { (width : Width) → OneAfterAnother width }
{}

/// What may stand for something comes from stores that agree on the source to such stores, so a pass that leaves a nest
/// as it is needs no proof of its own.
pub fn what_stands_keeps_agreement()
    ensures { (width : Width) → WhatStandsKeepsAgreement width }
{}
