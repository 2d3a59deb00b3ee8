//! What holds of prefixes, of relation and of the order of paths, for proofs of callers. A call does nothing.
ghost use Rattle.doc_path.specs.Laws.{PrefixBegins, IsPrefixReflexive, IsPrefixTransitive, IsRelatedSymmetric, ArePrefixesRelated, IsOrderExact, IsOrderAntisymmetric, IsOrderTransitive, IsProperPrefixLess};

/// One path is a prefix of another exactly where the other is the first with parts after it.
pub fn prefix_begins()
    ensures { PrefixBegins }
{}

/// A path is a prefix of itself.
pub fn prefix_reflexive()
    ensures { IsPrefixReflexive }
{}

/// A prefix of a prefix is a prefix.
pub fn prefix_transitive()
    ensures { IsPrefixTransitive }
{}

/// Where one path is related to another, the other is related to it.
pub fn related_symmetric()
    ensures { IsRelatedSymmetric }
{}

/// Two prefixes of one path are related.
pub fn prefixes_related()
    ensures { ArePrefixesRelated }
{}

/// Two paths are equal in the order exactly where they are the same.
pub fn order_exact()
    ensures { IsOrderExact }
{}

/// Of two paths turned round, the order is the reverse.
pub fn order_antisymmetric()
    ensures { IsOrderAntisymmetric }
{}

/// What is less than a lesser path is less.
pub fn order_transitive()
    ensures { IsOrderTransitive }
{}

/// A prefix of another path is less than it.
pub fn proper_prefix_less()
    ensures { IsProperPrefixLess }
{}
