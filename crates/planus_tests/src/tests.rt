mod asserting;
mod examples;
mod reading;
mod writing;
