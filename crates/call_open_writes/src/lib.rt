// What the opening writes into each table: settings, word counts, link keys, prices, tills, and zeros in front.
#![tactic(auto)]

pub mod fill;
pub mod links;
pub mod prices;
pub mod settings;
