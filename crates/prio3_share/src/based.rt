//! A field as one value.
ghost use Rattle.prio3_share.specs.Base.{Base, base_of};

use field_laws::Field;

/// A field whose members are one value, so that a clause can name it.
pub trait Based: Field {
    /// The ring, half, roots, numbers, residues, modulus and width of the field.
    ghost base: { Base Self };
}

impl<F: Field> Based for F {
    ghost base = { base_of F.ring F.half_of F.root_of F.number F.residue F.MODULUS F.WIDTH };
}
