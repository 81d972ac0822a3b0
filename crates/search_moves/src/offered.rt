// What a goal is offered.

use heap_formula::{Link, Rule};

/// What the next goal is offered: links to be tried, and the rules where none of them is admitted.
#[derive(Drop)]
pub struct Offers {
    pub links: Vec<Link>,
    pub rules: Vec<Rule>,
}
