// Packets told in metres, by their bits: what stands in the bytes once each distance is put in metres where it stands, and Q_SCALE 1. There is no code here.
#![tactic(auto)]
