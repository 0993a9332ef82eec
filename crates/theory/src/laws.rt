//! The laws of keys. Each function's contract is a law; calling it does nothing.

ghost use Rattle.theory.specs.Alikes.{AlikeFact};
ghost use Rattle.theory.specs.Laws.{ChainFact, DefiningFact, ResolutionFact, SignFact, EvenFact};
ghost use Rattle.theory.specs.Plots.{TwoLayers};
ghost use Rattle.theory.specs.Tables.{ColumnFact, WordsFact};
ghost use Rattle.theory.specs.Twins.{TwinFact};
ghost use Rattle.theory.specs.Wishes.{FormedFact, FrontFact};

/// Every sound key has exactly one standard twin.
pub fn one_standard_twin()
    ensures { TwinFact }
{}

/// Twins have the same tally, resolution and chains, and meet the same wishes.
pub fn twins_are_alike()
    ensures { AlikeFact }
{}

/// For two layers, sound and standard mean what they say of W's and S's, word for word.
pub fn two_layers()
    ensures { TwoLayers }
{}

/// Each effect goes to its unit word, and each unit word leads back to its chain: exactly the
/// effects with that alias, in rising number, 2^(n - k) of them.
pub fn chains_are_whole()
    ensures { ChainFact }
{}

/// The chain of the mean is 0 and the defining words, so there are 2^(n - k) - 1 of those, and the
/// resolution is the least length of one.
pub fn mean_and_defining_words()
    ensures words { DefiningFact }
    ensures shortest { ResolutionFact }
{}

/// Two effects are alike in every run exactly when one chain holds both, otherwise in exactly half
/// of the runs; and the like within each plot.
pub fn signs_agree_or_halve()
    ensures { SignFact }
{}

/// How the counts of effects by length and alias grow with one column more, and how the counts of
/// interactions are read off them word by word.
pub fn counts_grow_by_columns()
    ensures columns { ColumnFact }
    ensures words { WordsFact }
{}

/// The test of whether a wish is formed tells just that.
pub fn formed_is_tested()
    ensures { FormedFact }
{}

/// A wish of the first factors that their columns do not meet is met by no key that begins with
/// these.
pub fn first_columns_decide()
    ensures { FrontFact }
{}

/// With one subplot unit factor, every defining word has an even number of subplot factors.
pub fn subplot_factors_are_even()
    ensures { EvenFact }
{}
