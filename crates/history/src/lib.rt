// What a register's history says of it: demand 3, as statements over the promises of the register's
// calls. There is no code here.
//
// specs/Events.antt has histories, what stands of them and what replaying it gives, specs/Runs.antt how
// calls make a history, specs/Demand.antt the demand, and specs/Example.antt document 01's example.

#![tactic(auto)]
