// What a reply brings about (document 01, "The connection"). The calls that need no reply are in the crate connection. Here are also the steps of demand 3:
// what each call keeps of a job that sends (proofs), in the words of specs/Delivery.
#![tactic(auto, unfolding(laws::specs::Pick::pick))]

pub mod reply;
