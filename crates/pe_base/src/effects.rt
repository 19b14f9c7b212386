/// What events do, as functions of plain data. It has no call that runs: contracts cite its members.
pub trait Effects {
    /// What the effects are said of: a scenario, or the settings of a native mapping.
    type Plan;

    ghost use Rattle.pe_base.specs.Acts.Effects.{Rules, AreLawful};

    /// The effect of each event, what is made fresh, and the greatest level of the grid.
    ghost rules: { Rules Self.Plan };

    /// An event changes numbers, and triggers vertices. Payloads are made of zeros.
    ghost lawful: { AreLawful rules };
}
