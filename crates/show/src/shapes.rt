// What the files hold, record for record: the names, and the kinds of the fields.

// It stays an enum of its own: three shapes of a field, of which one has a length.
#[derive(Clone, Copy)]
pub enum Field {
    Number,
    Flag,
    Bytes(usize), // how many
}

pub const KEY: Field = Field::Bytes(48);

pub const CREDENTIALS: Field = Field::Bytes(32);

pub const ADDRESS: Field = Field::Bytes(20);

pub type Fields = &'static [(&'static str, Field)];

pub const SETTINGS: [&str; 19] = [
    "min_activation_balance",
    "max_effective_balance_electra",
    "effective_balance_increment",
    "min_per_epoch_churn_limit_electra",
    "max_per_epoch_activation_exit_churn_limit",
    "churn_limit_quotient",
    "shard_committee_period",
    "min_validator_withdrawability_delay",
    "max_seed_lookahead",
    "hysteresis_quotient",
    "hysteresis_downward_multiplier",
    "hysteresis_upward_multiplier",
    "max_pending_partials_per_withdrawals_sweep",
    "max_withdrawals_per_payload",
    "max_validators_per_withdrawals_sweep",
    "validator_registry_limit",
    "pending_balance_deposits_limit",
    "pending_partial_withdrawals_limit",
    "pending_consolidations_limit",
];

pub const SCALARS: [&str; 9] = [
    "epoch",
    "next_withdrawal_index",
    "next_withdrawal_validator_index",
    "deposit_receipts_start_index",
    "deposit_balance_to_consume",
    "exit_balance_to_consume",
    "earliest_exit_epoch",
    "consolidation_balance_to_consume",
    "earliest_consolidation_epoch",
];

// Counted records of one shape; the count is below the limit.
#[derive(Clone, Copy)]
pub struct List {
    pub heading: &'static str,
    pub limit: u32,
    pub name: &'static str,
    pub fields: Fields,
}

pub const LISTS: [List; 4] = [
    List {
        heading: "validators",
        limit: 0x1000_0000,
        name: "validator",
        fields: &[
            ("public_key", KEY),
            ("withdrawal_credentials", CREDENTIALS),
            ("slashed", Field::Flag),
            ("effective_balance", Field::Number),
            ("activation_eligibility_epoch", Field::Number),
            ("activation_epoch", Field::Number),
            ("exit_epoch", Field::Number),
            ("withdrawable_epoch", Field::Number),
            ("balance", Field::Number),
        ],
    },
    List {
        heading: "pending_balance_deposits",
        limit: 0x1000_0000,
        name: "pending_balance_deposit",
        fields: &[("index", Field::Number), ("amount", Field::Number)],
    },
    List {
        heading: "pending_partial_withdrawals",
        limit: 0x1000_0000,
        name: "pending_partial_withdrawal",
        fields: &[
            ("index", Field::Number),
            ("amount", Field::Number),
            ("withdrawable_epoch", Field::Number),
        ],
    },
    List {
        heading: "pending_consolidations",
        limit: 0x1000_0000,
        name: "pending_consolidation",
        fields: &[
            ("source_index", Field::Number),
            ("target_index", Field::Number),
        ],
    },
];

// What a call of code 8 lists.
pub const WITHDRAWALS: List = List {
    heading: "withdrawals",
    limit: 17,
    name: "withdrawal",
    fields: &[
        ("index", Field::Number),
        ("validator_index", Field::Number),
        ("address", ADDRESS),
        ("amount", Field::Number),
    ],
};

#[derive(Clone, Copy)]
pub struct Call {
    pub code: u32,
    pub name: &'static str,
    pub fields: Fields,
}

pub const CALLS: [Call; 8] = [
    Call {
        code: 1,
        name: "reward",
        fields: &[("validator", Field::Number), ("amount", Field::Number)],
    },
    Call {
        code: 2,
        name: "penalty",
        fields: &[("validator", Field::Number), ("amount", Field::Number)],
    },
    Call {
        code: 3,
        name: "deposit_receipt",
        fields: &[
            ("public_key", KEY),
            ("withdrawal_credentials", CREDENTIALS),
            ("amount", Field::Number),
            ("index", Field::Number),
            ("valid", Field::Flag),
        ],
    },
    Call {
        code: 4,
        name: "voluntary_exit",
        fields: &[
            ("validator", Field::Number),
            ("epoch", Field::Number),
            ("valid", Field::Flag),
        ],
    },
    Call {
        code: 5,
        name: "withdrawal_request",
        fields: &[
            ("source_address", ADDRESS),
            ("public_key", KEY),
            ("amount", Field::Number),
        ],
    },
    Call {
        code: 6,
        name: "consolidation",
        fields: &[
            ("source_index", Field::Number),
            ("target_index", Field::Number),
            ("epoch", Field::Number),
            ("valid", Field::Flag),
        ],
    },
    Call {
        code: 7,
        name: "turn",
        fields: &[],
    },
    Call {
        code: 8,
        name: "withdrawals",
        fields: &[],
    },
];
