#![tactic(auto, unfolding(rules::specs::Lines::line_of, rules::specs::Lines::parted, rules::specs::Lines::behind))]
// The report's bytes (document 01, Calls: "Report lines, by place").
pub mod letters;
pub mod lines;
pub mod whole;
