ghost use Rattle.pe_eval.specs.Law.{AreBodiesLawful, DoBodiesPrint};

/// What any body does to what its event sees is lawful: the place, the kinds, and how many corners and
/// parents there are stay, and a state changes only as the two triggers change it.
pub fn bodies_are_lawful()
    ensures { AreBodiesLawful }
{}

/// The text of any body is the lines of its prints.
pub fn bodies_print_lines()
    ensures { DoBodiesPrint }
{}
