// What can be seen from where: walks, the search that fills a row, and the table.
#![tactic(auto)]

mod arrays;
pub mod bitmap;
pub mod call;
pub mod calls;
pub mod deck;
pub mod desk;
pub mod desks;
pub mod fill;
pub mod index;
pub mod order;
pub mod quest;
pub mod refusal;
pub mod reply;
pub mod row;
pub mod rows;
pub mod run;
pub mod run_calls;
pub mod search;
pub mod sightline;
pub mod step;
pub mod table;
pub mod trail;
pub mod visitor;
pub mod witness;
