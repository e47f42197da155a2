ghost use Rattle.catalog.specs.Shape.{OneCatalog};

/// What a text says is one catalog.
pub fn catalog_laws()
    ensures { OneCatalog }
{}
