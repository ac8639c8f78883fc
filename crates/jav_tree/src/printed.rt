//! Trees as they are printed: with the parentheses that the layout puts, and no others.
ghost use Rattle.jav_tree.specs.PrintedTrees.{DropsBeforePrinting, DropsToTheSame, PrintsAsPrinted, SettledWhenPrinted};

/// The laws of the tree as printed. The call computes nothing.
pub fn printed_trees()
    // The text of a tree is that of the tree as printed.
    ensures layout { PrintsAsPrinted }
    // The tree as printed differs from the tree by parentheses alone.
    ensures dropped { DropsToTheSame }
    // The parentheses that stand in a tree make no difference to the tree as printed ..
    ensures blind { DropsBeforePrinting }
    // .. and those that the layout puts stay as they are.
    ensures settled { SettledWhenPrinted }
{}
