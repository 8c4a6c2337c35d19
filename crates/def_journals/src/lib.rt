//! Journals of a core, deliveries, and the edges along which futures go. Definitions stand in specs/.
#![tactic(auto)]
