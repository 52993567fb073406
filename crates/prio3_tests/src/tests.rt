mod preparing;
mod refused;
mod sharing;
mod steps;
