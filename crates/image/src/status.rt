// What a record says of its number besides the form.
ghost use Rattle.std.specs.Prelude.{◌≡◌};
ghost use Rattle.image.specs.Statuses.{code_of};

#[derive(Clone, Copy, PartialEq, Eq)]
pub enum Status {
    Inactive,
    Active,
}

impl From<Status> for usize {
    ghost from_gives = { λ status code. code ≡ code_of status };

    fn from(status: Status) -> usize {
        match status {
            Status::Inactive => 0,
            Status::Active => 1,
        }
    }
}
