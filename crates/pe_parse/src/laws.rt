//! Laws of the grammar. Each function has a law for its contract, and no body: the law holds of the definitions alone.
ghost use Rattle.pe_parse.specs.Laws.{HasOneTree, IsReadAsPrinted};
ghost use Rattle.pe_parse.specs.Trees.{AreSpelled};

/// Tokens without a fault spell a body.
pub fn fault_free_is_spelled()
    ensures { AreSpelled }
{}

/// Each text has at most one tree.
pub fn one_tree()
    ensures { HasOneTree }
{}

/// A body that was read is, as it is printed, read as itself: the same tree, with the offsets of the text that was
/// printed. What is printed has parentheses around each operand that is a chain, and a space behind each token.
pub fn printed_is_read()
    ensures { IsReadAsPrinted }
{}
