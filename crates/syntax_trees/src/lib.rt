// Syntax trees and their tokens: every tree, shown and read, is that tree again, no two trees share their tokens, and whatever is read is a tree.
#![tactic(auto)]
