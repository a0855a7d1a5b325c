// Examples of what each line of the machine language asks for.
#![tactic(auto)]

#[cfg(test)]
mod order_lines;
