//! The program of the bank.

/// It stands in `examples/bank/bank.py` too.
pub(crate) const PROGRAM: &[u8] = b"from stateflow import entity


@entity
class Account:
    def __init__(self, name: str, balance: int):
        self.name: str = name
        self.balance: int = balance

    def __key__(self):
        return self.name

    def take(self, amount: int) -> None:
        self.balance += amount

    def give(self, amount: int, to: 'Account') -> bool:
        if to == self or self.balance < amount:
            return False
        to.take(amount)
        self.balance -= amount
        return True
";
