// What holds of the declarations of every checked sheet, and with it the replay of its listing: laws alone.
#![tactic(auto)]
