mod circuits;
mod elements;
mod polynomials;
mod proofs;
mod transforms;
mod vectors;
