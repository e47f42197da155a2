ghost use Rattle.descriptor_types.specs.Laws.{PlainFits, OnlyFits, AskedFits, AsLong, NamedAt, ValueAt, ChangedAt, ChangedNowhere, ReadsWhatIsSet, OthersStay, KindAt, ChangedFits};

/// What fits a layout: all defaults do, and so does what a view or a demand makes of descriptors
/// that do. A descriptor that fits has as many values as the layout has properties.
pub fn descriptor_laws()
    ensures plain { PlainFits }
    ensures only { OnlyFits }
    ensures asked { AskedFits }
    ensures as_long { AsLong }
{}

/// What holds between the names of properties and their places.
pub fn place_laws()
    ensures named { NamedAt }
    ensures value { ValueAt }
    ensures changed { ChangedAt }
    ensures nowhere { ChangedNowhere }
    ensures set { ReadsWhatIsSet }
    ensures others { OthersStay }
    ensures kind { KindAt }
    ensures fits { ChangedFits }
{}
