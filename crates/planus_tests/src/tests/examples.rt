mod fleets;
mod floats;
mod groups;
mod sites;
mod streams;
