//! A file for each kind of view. No clause says what a view shows: these tests look for its texts.

mod pictures;
mod script_views;
mod tables;
mod whys;
